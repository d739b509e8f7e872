//! How the moves of a text are counted, and its lines judged.

ghost use Rattle.std.specs.Prelude.{◌≡◌, ◌≤◌, length, None};
ghost use Rattle.pcf_values.specs.Most.{most_schedule_bytes};
ghost use Rattle.schedule_log.specs.Reading.{counted, runs_from};
ghost use Rattle.text_lines.specs.Lines.{lines};

use crate::fault::ScheduleFault;
use crate::line::judge;
use crate::version::Version;
use text_lines::{cut_line, is_end};

/// How many moves the lines behind the header stand for.
///
/// # Errors
///
/// The first line's fault as `judge` tells it, `BadLine` of the line behind one that is `end`, or `NoEnd` where no line is.
pub fn count_moves(version: Version, bytes: &[u8]) -> Result<u32, ScheduleFault>
    requires { length bytes.now ≤ most_schedule_bytes }
    ensures { counted 0 (runs_from version None 0 2 (lines bytes.now)) ≡ result }
{
    let mut rest = bytes;
    let mut last: Option<u32> = None;
    let mut moves = 0u32;
    let mut n = 2u32;
    while rest.len() > 0 {
        let (line, more) = cut_line(rest);
        if is_end(line) {
            if more.len() > 0 {
                return Err(ScheduleFault::BadLine(n + 1));
            }
            return Ok(moves);
        }
        let run = match judge(version, last, moves, n, line) {
            Ok(run) => run,
            Err(fault) => return Err(fault),
        };
        last = Some(run.ticket);
        moves += run.count;
        n += 1;
        rest = more;
    }
    Err(ScheduleFault::NoEnd)
}
