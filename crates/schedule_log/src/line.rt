//! One line of a schedule's text: which it is, and what it stands for.

ghost use Rattle.std.specs.Prelude.{◌≡◌, ◌↔◌, ◌+◌, ◌<◌, ◌≤◌, ◌∷◌, length, IsTrue, Ok, Err, IfOk, IfErr};
ghost use Rattle.pcf_values.specs.Most.{most_moves};
ghost use Rattle.schedule_log.specs.Reading.{judged_line, may_follow};
ghost use Rattle.text_lines.specs.Lines.{end_line, lines};

use crate::fault::ScheduleFault;
use crate::scan::found_in;
use crate::version::Version;
use pcf_values::limits::SCHEDULE_MOVES;

/// What a move line stands for, within the limits.
#[derive(Clone, Copy)]
pub struct LineRun {
    /// The ticket.
    pub ticket: u32,
    /// How often it moves.
    pub count: u32,
}

/// What line `n` stands for, behind `moves` moves and a move line with the ticket `last`.
///
/// # Errors
///
/// `BadLine` where it is no move line of this version or can't stand behind `last`, `TicketTooWide` where its ticket has more than 32 bits,
/// and `TooLong` where with it there are more than `SCHEDULE_MOVES` moves; each with `n`.
pub fn judge(
    version: Version,
    last: Option<u32>,
    moves: u32,
    n: u32,
    line: &[u8],
) -> Result<LineRun, ScheduleFault>
    requires { moves ≤ most_moves }
    ensures run { IfOk result (λ r. judged_line version last moves n line.now ≡ Ok (record { ticket = r.ticket; count = r.count })) }
    ensures few { IfOk result (λ r. moves + r.count ≤ most_moves) }
    ensures fault { IfErr result (λ f. judged_line version last moves n line.now ≡ Err f) }
{
    let Some(found) = found_in(version, line) else {
        return Err(ScheduleFault::BadLine(n));
    };
    if !follows(version, last, found.ticket) {
        return Err(ScheduleFault::BadLine(n));
    }
    if found.ticket > u32::MAX as u64 {
        return Err(ScheduleFault::TicketTooWide(n));
    }
    if moves as u64 + found.count > SCHEDULE_MOVES as u64 {
        return Err(ScheduleFault::TooLong(n));
    }
    Ok(LineRun {
        ticket: found.ticket as u32,
        count: found.count as u32,
    })
}

/// Whether the ticket may stand behind the last one.
fn follows(version: Version, last: Option<u32>, ticket: u64) -> bool
    ensures { result ≡ may_follow version last ticket }
{
    match version {
        Version::One => true,
        Version::Two => match last {
            None => true,
            Some(other) => ticket != other as u64,
        },
    }
}
