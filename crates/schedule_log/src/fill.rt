//! How a log is filled with the moves of a text.

ghost use Rattle.std.specs.Prelude.{◌≡◌, ◌+◌, ◌≤◌, length, [], None, Ok};
ghost use Rattle.pcf_values.specs.Most.{most_schedule_bytes};
ghost use Rattle.schedule_log.specs.Logs.{read_entries};
ghost use Rattle.schedule_log.specs.LogsSeen.{with_entries};
ghost use Rattle.schedule_log.specs.Reading.{counted, runs_from, runs_or_none};
ghost use Rattle.text_lines.specs.Lines.{lines};
ghost use Rattle.schedule_log.specs.Schedules.{again, tickets_of};

use crate::line::judge;
use crate::log::Log;
use crate::version::Version;
use text_lines::{cut_line, is_end};

/// Adds the moves of the lines behind the header, which were counted, each for worker 0.
pub fn push_moves(log: &mut Log, version: Version, bytes: &[u8])
    requires short { length bytes.now ≤ most_schedule_bytes }
    requires empty { log.old.entries ≡ [] }
    requires room { counted 0 (runs_from version None 0 2 (lines bytes.now)) ≡ Ok log.old.room }
    ensures entries { log.new.entries ≡ read_entries (tickets_of (runs_or_none (runs_from version None 0 2 (lines bytes.now)))) }
    ensures room { log.new.room ≡ log.old.room }
{
    let mut rest = bytes;
    let mut last: Option<u32> = None;
    let mut moves = 0u32;
    let mut n = 2u32;
    while rest.len() > 0 {
        let (line, more) = cut_line(rest);
        if is_end(line) {
            return;
        }
        let run = match judge(version, last, moves, n, line) {
            Ok(run) => run,
            Err(_fault) => return,
        };
        log.push_many(run.ticket, 0, run.count);
        last = Some(run.ticket);
        moves += run.count;
        n += 1;
        rest = more;
    }
}
