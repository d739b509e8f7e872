//! The reading of a schedule's text.

ghost use Rattle.std.specs.Prelude.{◌≡◌, ◌⊎◌, ◌↔◌, ◌<◌, ◌≤◌, length, IsTrue, None, Err, IfOk, IfSome, IfNone};
ghost use Rattle.pcf_values.specs.Most.{most_schedule_bytes};
ghost use Rattle.schedule_log.specs.declared.fault.ScheduleFault.TheVariants.{NoMemory};
ghost use Rattle.schedule_log.specs.Logs.{tickets_in_log};
ghost use Rattle.schedule_log.specs.LogsSeen.{read_log, tickets_read};
ghost use Rattle.schedule_log.specs.Reading.{MaybeRead, only_tickets, runs_from};
ghost use Rattle.text_lines.specs.Lines.{lines};
ghost use Rattle.schedule_log.specs.Schedules.{ReadAs, header};

use crate::count::count_moves;
use crate::fault::ScheduleFault;
use crate::fill::push_moves;
use crate::log::Log;
use crate::version::Version;
use pcf_values::limits::SCHEDULE_BYTES;
use std::alloc::Global;
use text_lines::cut_line;

/// The log that a schedule text of either version stands for, with room for its moves exactly, or the text's first fault.
///
/// Each move has worker 0. A text of more than `SCHEDULE_BYTES` bytes, or of more than `SCHEDULE_MOVES` moves, is refused.
///
/// # Errors
///
/// The first fault of the text, with its line, counted from 1. Or it runs out of memory.
pub fn read_schedule(alloc: Global, bytes: &[u8]) -> Result<Log, ScheduleFault>
    ensures answer { ReadAs bytes.now (tickets_read result) }
    ensures log { IfOk result (λ log. log ≡ read_log (tickets_in_log log.entries)) }
{
    if is_too_long(bytes) {
        return Err(ScheduleFault::TooLong(0));
    }
    if bytes.len() == 0 {
        return Err(ScheduleFault::BadHeader);
    }
    let (line, rest) = cut_line(bytes);
    match version_of(line) {
        Some(version) => read_lines(alloc, version, rest),
        None => Err(ScheduleFault::BadHeader),
    }
}

/// Whether there are more bytes than a schedule may have.
fn is_too_long(bytes: &[u8]) -> bool
    ensures { IsTrue result ↔ (most_schedule_bytes < length bytes.now) }
{
    bytes.len() as u64 > SCHEDULE_BYTES
}

/// The version whose header this line is.
fn version_of(line: &[u8]) -> Option<Version>
    ensures some { IfSome result (λ v. line.now ≡ header v) }
    ensures none { IfNone result ((v : Version) → line.now ≡ header v → ⊥) }
{
    if line == b"schedule 2\n".as_slice() {
        return Some(Version::Two);
    }
    if line == b"schedule 1\n".as_slice() {
        return Some(Version::One);
    }
    None
}

/// The log of the lines behind the header.
fn read_lines(alloc: Global, version: Version, bytes: &[u8]) -> Result<Log, ScheduleFault>
    requires { length bytes.now ≤ most_schedule_bytes }
    ensures answer { MaybeRead (only_tickets (runs_from version None 0 2 (lines bytes.now))) (tickets_read result) }
    ensures log { IfOk result (λ log. log ≡ read_log (tickets_in_log log.entries)) }
{
    let moves = match count_moves(version, bytes) {
        Ok(moves) => moves,
        Err(fault) => return Err(fault),
    };
    let Ok(mut log) = Log::with_room(alloc, moves) else {
        return Err(ScheduleFault::NoMemory);
    };
    push_moves(&mut log, version, bytes);
    Ok(log)
}
