//! The counts of a tally, and their lines.

ghost use Rattle.std.specs.Prelude.{◌≡◌, ◌+◌, ◌^◌, ◌<◌, ◌≤◌, ◌++◌, IfOk, OnOk, length};
ghost use Rattle.pcf_values.specs.Most.{most_workers};
ghost use Rattle.schedule_log.specs.KeptRuns.{Each, spread};
ghost use Rattle.schedule_log.specs.Tally.{tally};
ghost use Rattle.goi_reports.specs.Tallies.{tally_lines, worker_line};
ghost use Rattle.goi_reports.specs.Booked.{BookedWithin, last_or_worker_line};

use crate::line::push_number_line;
use itoa::Buffer;
use schedule_log::Moves;
use std::alloc::{AllocError, Global};

/// How many of the moves each worker booked, and the finisher at the end, by one walk over their runs.
pub(crate) fn count_moves(
    alloc: Global,
    runs: &[Moves],
    workers: u32,
) -> Result<Vec<u32>, AllocError>
    requires few { workers ≤ most_workers }
    requires each { Each runs.now }
    requires short { length (spread runs.now) < 2 ^ 32 }
    requires booked { BookedWithin workers (spread runs.now) }
    ensures counted { IfOk result (λ v. v.items ≡ tally (spread runs.now) workers) }
{
    let mut counts = vec![in alloc; 0u32; workers as usize + 1]?;
    for run in runs {
        counts[run.worker() as usize] += run.count();
    }
    Ok(counts)
}

/// Appends the lines of a tally's counts.
pub(crate) fn push_tally_lines(report: &mut Vec<u8>, counts: &[u32]) -> Result<(), AllocError>
    requires { length counts.now < 2 ^ 32 }
    ensures { OnOk result (report.new.items ≡ report.old.items ++ tally_lines 0 counts.now) }
{
    let mut worker = 0u32;
    let mut rest = counts;
    while let [count, behind @ ..] = rest {
        push_count(report, worker, *count, behind.is_empty())?;
        worker += 1;
        rest = behind;
    }
    Ok(())
}

/// Appends the line of a count: the finisher's, if it is the last one, and else that of this worker.
fn push_count(report: &mut Vec<u8>, worker: u32, count: u32, last: bool) -> Result<(), AllocError>
    ensures { OnOk result (report.new.items ≡ report.old.items ++ last_or_worker_line last worker count) }
{
    if last {
        push_number_line(report, b"finisher ", count.into())
    } else {
        push_worker_line(report, worker, count)
    }
}

/// Appends the line of a worker.
fn push_worker_line(report: &mut Vec<u8>, worker: u32, count: u32) -> Result<(), AllocError>
    ensures { OnOk result (report.new.items ≡ report.old.items ++ worker_line worker count) }
{
    let mut buffer = Buffer::new();
    report.extend_from_slice(b"worker ")?;
    report.extend_from_slice(buffer.format(worker).as_bytes())?;
    push_number_line(report, b" ", count.into())
}
