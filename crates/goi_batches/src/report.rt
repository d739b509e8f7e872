//! The run of the programs of a list, and the report on it.

ghost use Rattle.std.specs.Prelude.{◌≡◌, ◌≤◌, List, [], length, IfOk, OnOk};
ghost use Rattle.batch_lists.specs.Limits.{most_jobs};
ghost use Rattle.goi_jobs.specs.Ranges.{IsWorkers};
ghost use Rattle.goi_tasks.specs.Outputs.{output};
ghost use Rattle.goi_tasks.specs.Seen.{output_of};
ghost use Rattle.goi_batches.specs.Judging.{AreJudged};
ghost use Rattle.goi_batches.specs.Sections.{Listed, statuses_of, batch_status, batch_report};
ghost use Rattle.goi_batches.specs.Telling.{told_by, Fit, EachFits, ReportsBatch};

use crate::judged::Judged;
use crate::sections::{batch_status, push_sections};
use crate::sorting::sort;
use batch_pool::run_batch;
use gate_workers::Gate;
use goi_tasks::Report;
use std::alloc::{AllocError, Global};
use std::sync::Wait;
use std::thread::Threads;
use token_pool::Ended;

/// Runs the programs of a list, as they were judged, by workers that they share, and tells of each in turn what a run of it alone within
/// its budget prints, or its refusal. The status is 1 where a program is refused, else 5 where one has no value, and else 0. There are no
/// notes.
///
/// # Errors
///
/// It runs out of memory.
pub fn report_batch<R: Threads + Wait + Sync, G: Gate>(
    rt: &R,
    alloc: Global,
    programs: Vec<Judged>,
    workers: u32,
    gate: &G,
) -> Result<Report, AllocError>
    requires judged { (ps : List Listed) × AreJudged ps programs.items }
    requires few { length programs.items ≤ most_jobs }
    requires workers { IsWorkers workers }
    ensures { IfOk result (λ r. (ps : List Listed) → AreJudged ps programs.items → ReportsBatch workers ps (output_of r)) }
{
    let (marks, jobs) = sort(alloc, programs)?;
    let ends = run_batch(rt, alloc, &jobs, workers, gate);
    drop(jobs);
    tell(alloc, &marks, &ends?, workers)
}

/// The report on programs by their marks and by the ends of those that ran.
fn tell(
    alloc: Global,
    marks: &[Option<Vec<u8>>],
    ends: &[Ended],
    workers: u32,
) -> Result<Report, AllocError>
    requires few { length marks.now ≤ most_jobs }
    requires fit { Fit workers marks.now ends.now }
    requires workers { IsWorkers workers }
    ensures report { IfOk result (λ r.
        output_of r ≡
        output (batch_status (statuses_of (told_by workers marks.now ends.now)))
        (batch_report (told_by workers marks.now ends.now)) []) }
    ensures fits { OnOk result (EachFits marks.now ends.now) }
{
    let mut text = Vec::new(alloc);
    let mut statuses = Vec::new(alloc);
    push_sections(alloc, marks, ends, &mut text, &mut statuses, 0, workers)?;
    Ok(Report {
        text,
        notes: Vec::new(alloc),
        status: batch_status(&statuses),
    })
}
