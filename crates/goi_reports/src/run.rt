//! The report of a run, with its schedule and its tally where they are asked for.

ghost use Rattle.std.specs.Prelude.{◌≡◌, ◌≤◌, ◌++◌, IfOk, OnOk, length};
ghost use Rattle.pcf_values.specs.Most.{most_workers};
ghost use Rattle.schedule_log.specs.Logs.{tickets_in_log};
ghost use Rattle.schedule_log.specs.Runs.{schedule_text};
ghost use Rattle.goi_reports.specs.Forms.{IsRunReport};
ghost use Rattle.goi_reports.specs.Reports.{asked_lines, run_report};
ghost use Rattle.goi_reports.specs.Tallies.{tally_text};
ghost use Rattle.goi_reports.specs.Booked.{BookedWithin};

use crate::counts::{count_moves, push_tally_lines};
use crate::line::push_result;
use pcf_values::Val;
use schedule_log::{Log, print_schedule};
use std::alloc::{AllocError, Global};

/// What stands in the report of a run behind its answer and its moves.
#[derive(Clone, Copy)]
pub struct Parts {
    /// The schedule: the text of the run's log.
    pub schedule: bool,
    /// How many of the moves each worker booked, and the finisher behind them.
    pub tally: bool,
}

/// The report of a run by so many workers: its answer, if it came to one, how many moves its log has, and these parts behind them.
///
/// # Errors
///
/// `AllocError` when memory runs out.
pub fn run_report(
    alloc: Global,
    answer: Option<Val>,
    log: &Log,
    workers: u32,
    parts: Parts,
) -> Result<Vec<u8>, AllocError>
    requires workers { (1 ≤ workers) × (workers ≤ most_workers) }
    requires booked { BookedWithin workers log.now.entries }
    ensures report { IfOk result (λ v. v.items ≡ run_report answer log.now.entries workers parts.schedule parts.tally) }

    // So the text has the form of such a report.
    ensures form { IfOk result (λ v. IsRunReport answer (length log.now.entries) workers parts.schedule parts.tally v.items) }
{
    let mut report = Vec::new(alloc);
    push_result(&mut report, answer, log.len())?;
    push_asked(alloc, &mut report, log, workers, parts)?;
    Ok(report)
}

/// Appends what is asked for: the schedule, and then the tally.
fn push_asked(
    alloc: Global,
    report: &mut Vec<u8>,
    log: &Log,
    workers: u32,
    parts: Parts,
) -> Result<(), AllocError>
    requires few { workers ≤ most_workers }
    requires booked { BookedWithin workers log.now.entries }
    ensures { OnOk result (report.new.items ≡ report.old.items ++ asked_lines log.now.entries workers parts.schedule parts.tally) }
{
    if parts.schedule {
        push_schedule(alloc, report, log)?;
    }
    if parts.tally {
        push_tally(alloc, report, log, workers)?;
    }
    Ok(())
}

/// Appends the schedule of a log.
fn push_schedule(alloc: Global, report: &mut Vec<u8>, log: &Log) -> Result<(), AllocError>
    ensures { OnOk result (report.new.items ≡ report.old.items ++ schedule_text (tickets_in_log log.now.entries)) }
{
    let text = print_schedule(alloc, log)?;
    report.extend_from_slice(&text)
}

/// Appends the tally of a log.
fn push_tally(
    alloc: Global,
    report: &mut Vec<u8>,
    log: &Log,
    workers: u32,
) -> Result<(), AllocError>
    requires few { workers ≤ most_workers }
    requires booked { BookedWithin workers log.now.entries }
    ensures { OnOk result (report.new.items ≡ report.old.items ++ tally_text log.now.entries workers) }
{
    let counts = count_moves(alloc, log.runs(), workers)?;
    push_tally_lines(report, &counts)
}
