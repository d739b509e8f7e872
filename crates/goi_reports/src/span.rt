//! The report of a run in rounds.

ghost use Rattle.std.specs.Prelude.{◌≡◌, ◌≤◌, ◌<◌, ◌^◌, ◌++◌, IfOk, OnOk, length, take};
ghost use Rattle.schedule_log.specs.Logs.{tickets_in_log};
ghost use Rattle.schedule_log.specs.Runs.{schedule_text};
ghost use Rattle.goi_reports.specs.Reports.{where_asked};
ghost use Rattle.goi_reports.specs.Spans.{asked_rounds, most_rounds, profile_text, round_line, round_lines, rounds_lines, span_report};

use crate::line::{push_number_line, push_result};
use itoa::Buffer;
use pcf_values::Val;
use schedule_log::{Log, print_schedule};
use std::alloc::{AllocError, Global};

/// How many rounds are told at the most, each on a line.
pub const PROFILE_ROUNDS: u32 = 100_000;

/// What is told of a run in rounds besides its answer and its numbers.
#[derive(Clone, Copy)]
pub struct RoundParts {
    /// Each round.
    pub profile: bool,
    /// The schedule.
    pub schedule: bool,
}

/// The report of a run in rounds: its answer, if it came to one, how many moves it made in how many rounds, and the greatest of their
/// widths. With `profile` it tells each round, up to `PROFILE_ROUNDS` of them, and with `schedule` the schedule of their tickets. A round's
/// width is how many tokens were live before it.
///
/// # Errors
///
/// `AllocError` when memory runs out.
pub fn span_report(
    alloc: Global,
    answer: Option<Val>,
    rounds: u32,
    tickets: &[u32],
    widths: &[u32],
    widest: u32,
    parts: RoundParts,
) -> Result<Vec<u8>, AllocError>
    requires { length tickets.now < 2 ^ 32 }
    ensures { IfOk result (λ v. v.items ≡ span_report answer rounds tickets.now widths.now widest parts.profile parts.schedule) }
{
    let mut report = Vec::new(alloc);
    push_result(&mut report, answer, tickets.len() as u32)?;
    push_rounds_lines(&mut report, rounds, widest)?;
    push_asked(alloc, &mut report, tickets, widths, parts)?;
    Ok(report)
}

/// Appends the lines of rounds: their number, and how wide the widest was.
fn push_rounds_lines(report: &mut Vec<u8>, rounds: u32, widest: u32) -> Result<(), AllocError>
    ensures { OnOk result (report.new.items ≡ report.old.items ++ rounds_lines rounds widest) }
{
    push_number_line(report, b"rounds ", rounds.into())?;
    push_number_line(report, b"widest ", widest.into())
}

/// Appends what is asked for: each round, and then the schedule.
fn push_asked(
    alloc: Global,
    report: &mut Vec<u8>,
    tickets: &[u32],
    widths: &[u32],
    parts: RoundParts,
) -> Result<(), AllocError>
    requires { length tickets.now < 2 ^ 32 }
    ensures { OnOk result (report.new.items ≡ report.old.items ++ asked_rounds tickets.now widths.now parts.profile parts.schedule) }
{
    push_asked_profile(report, widths, parts.profile)?;
    push_asked_schedule(alloc, report, tickets, parts.schedule)
}

/// Appends the lines of the rounds, where they are asked for.
fn push_asked_profile(report: &mut Vec<u8>, widths: &[u32], profile: bool) -> Result<(), AllocError>
    ensures { OnOk result (report.new.items ≡ report.old.items ++ where_asked profile (profile_text widths.now)) }
{
    if profile {
        push_profile(report, first_rounds(widths))?;
    }
    Ok(())
}

/// Appends the schedule, where it is asked for.
fn push_asked_schedule(
    alloc: Global,
    report: &mut Vec<u8>,
    tickets: &[u32],
    schedule: bool,
) -> Result<(), AllocError>
    requires { length tickets.now < 2 ^ 32 }
    ensures { OnOk result (report.new.items ≡ report.old.items ++ where_asked schedule (schedule_text tickets.now)) }
{
    if schedule {
        push_schedule(alloc, report, tickets)?;
    }
    Ok(())
}

/// The rounds that are told.
fn first_rounds(widths: &[u32]) -> &[u32]
    ensures first { result.now ≡ take most_rounds widths.now }
    ensures few { length result.now ≤ most_rounds }
{
    let most = PROFILE_ROUNDS as usize;
    if widths.len() > most {
        &widths[..most]
    } else {
        widths
    }
}

/// Appends the lines of rounds, counted from 1.
fn push_profile(report: &mut Vec<u8>, widths: &[u32]) -> Result<(), AllocError>
    requires { length widths.now ≤ most_rounds }
    ensures { OnOk result (report.new.items ≡ report.old.items ++ round_lines 1 0 widths.now) }
{
    let mut number = 1u32;
    let mut moves = 0u64;
    let mut rest = widths;
    while let [live, behind @ ..] = rest {
        moves += u64::from(*live);
        push_round(report, number, *live, moves)?;
        number += 1;
        rest = behind;
    }
    Ok(())
}

/// Appends the line of a round.
fn push_round(report: &mut Vec<u8>, number: u32, live: u32, moves: u64) -> Result<(), AllocError>
    ensures { OnOk result (report.new.items ≡ report.old.items ++ round_line number live moves) }
{
    let mut buffer = Buffer::new();
    report.extend_from_slice(b"round ")?;
    report.extend_from_slice(buffer.format(number).as_bytes())?;
    report.extend_from_slice(b" live ")?;
    report.extend_from_slice(buffer.format(live).as_bytes())?;
    push_number_line(report, b" moves ", moves)
}

/// Appends the schedule of these tickets.
fn push_schedule(alloc: Global, report: &mut Vec<u8>, tickets: &[u32]) -> Result<(), AllocError>
    requires { length tickets.now < 2 ^ 32 }
    ensures { OnOk result (report.new.items ≡ report.old.items ++ schedule_text tickets.now) }
{
    let log = log_of(alloc, tickets)?;
    let text = print_schedule(alloc, &log);
    drop(log);
    report.extend_from_slice(&text?)
}

/// The log of these tickets.
fn log_of(alloc: Global, tickets: &[u32]) -> Result<Log, AllocError>
    requires { length tickets.now < 2 ^ 32 }
    ensures { IfOk result (λ log. tickets_in_log log.entries ≡ tickets.now) }
{
    let mut log = Log::with_room(alloc, tickets.len() as u32)?;
    for ticket in tickets {
        log.push(*ticket, 0);
    }
    Ok(log)
}
