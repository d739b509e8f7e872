//! How a log is printed.

ghost use Rattle.std.specs.Prelude.{◌≡◌, ◌↔◌, ◌+◌, ◌<◌, ◌≤◌, ◌^◌, [], ◌∷◌, ◌++◌, length, IsTrue, OnOk, IfOk};
ghost use Rattle.schedule_log.specs.KeptRuns.{spread, Each};
ghost use Rattle.schedule_log.specs.Logs.{tickets_in_log};
ghost use Rattle.schedule_log.specs.Schedules.{again};
ghost use Rattle.schedule_log.specs.Runs.{run_line, run_lines, runs_of, schedule_text};
ghost use Rattle.text_lines.specs.Lines.{joined};

use crate::log::Log;
use crate::moves::Moves;
use itoa::Buffer;
use std::alloc::{AllocError, Global};

/// The text of a log in version 2: a line for each longest run of one ticket.
///
/// # Errors
///
/// It runs out of memory.
pub fn print_schedule(alloc: Global, log: &Log) -> Result<Vec<u8>, AllocError>
    ensures { IfOk result (λ text. text.items ≡ schedule_text (tickets_in_log log.now.entries)) }
{
    let mut text = Vec::from_slice(alloc, b"schedule 2\n")?;
    push_runs(&mut text, log.runs())?;
    Ok(text)
}

/// Appends the lines of all runs, and the last line.
fn push_runs(text: &mut Vec<u8>, runs: &[Moves]) -> Result<(), AllocError>
    requires few { length (spread runs.now) < 2 ^ 32 }
    requires each { Each runs.now }
    ensures { OnOk result (text.new.items ≡ text.old.items ++ joined (run_lines (runs_of (tickets_in_log (spread runs.now))))) }
{
    match runs {
        [] => text.extend_from_slice(b"end\n"),
        [first, rest @ ..] => {
            push_from(text, first.ticket(), first.count(), rest)?;
            Ok(())
        }
    }
}

/// Appends the lines of so many moves of a first ticket and of the runs behind them, and the last line.
fn push_from(text: &mut Vec<u8>, first: u32, times: u32, rest: &[Moves]) -> Result<(), AllocError>
    requires some { 1 ≤ times }
    requires few { times + length (spread rest.now) < 2 ^ 32 }
    requires each { Each rest.now }
    ensures { OnOk result (text.new.items ≡
        text.old.items ++ joined (run_lines (runs_of (again first times (tickets_in_log (spread rest.now)))))) }
{
    let mut ticket = first;
    let mut count = times;
    for run in rest {
        if run.ticket() == ticket {
            count += run.count();
        } else {
            push_run(text, ticket, count)?;
            ticket = run.ticket();
            count = run.count();
        }
    }
    push_last(text, ticket, count)?;
    Ok(())
}

/// Appends the line of the last run, and the last line.
fn push_last(text: &mut Vec<u8>, last: u32, count: u32) -> Result<(), AllocError>
    ensures { OnOk result (text.new.items ≡ text.old.items ++ joined (run_lines (record { ticket = last; count = count } ∷ []))) }
{
    push_run(text, last, count)?;
    text.extend_from_slice(b"end\n")?;
    Ok(())
}

/// Appends the line of a run.
fn push_run(text: &mut Vec<u8>, ticket: u32, count: u32) -> Result<(), AllocError>
    ensures { OnOk result (text.new.items ≡ text.old.items ++ run_line (record { ticket = ticket; count = count })) }
{
    let mut buffer = Buffer::new();
    text.extend_from_slice(buffer.format(ticket).as_bytes())?;
    text.extend_from_slice(b" ")?;
    text.extend_from_slice(buffer.format(count).as_bytes())?;
    text.extend_from_slice(b"\n")
}
