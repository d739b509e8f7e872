//! The report of a run of a net.

ghost use Rattle.std.specs.Prelude.{◌≡◌, ◌++◌, ℕ, List, false, IfOk};
ghost use Rattle.pcf_values.specs.Terms.{TermTree};
ghost use Rattle.interleave_laws.specs.Runs.{Runs};
ghost use Rattle.goi_jobs.specs.Ranges.{IsBudget, IsWorkers};
ghost use Rattle.goi_reports.specs.Forms.{AnswerFits};
ghost use Rattle.goi_reports.specs.Reports.{run_report};
ghost use Rattle.goi_reports.specs.Booked.{BookedWithin};
ghost use Rattle.net_runs.specs.IsRun.{IsRun};
ghost use Rattle.program_runs.specs.declared.calling.Calling.{Calling};
ghost use Rattle.program_runs.specs.Nets.{RunsAs};
ghost use Rattle.walk_text.specs.Traces.{trace_text};
ghost use Rattle.goi_tasks.specs.Notes.{progress_lines};
ghost use Rattle.goi_tasks.specs.Parts.{NumbersOf};
ghost use Rattle.goi_tasks.specs.Seen.{output_of};
ghost use Rattle.goi_tasks.specs.Replaying.{replay_status};
ghost use Rattle.goi_tasks.specs.RunReports.{ReportsRun, ReportsTrace};

use crate::notes::progress_lines;
use crate::report::{Report, plain};
use goi_jobs::{Shown, Window};
use goi_reports::{Parts, run_report};
use net_build::Net;
use pcf_values::Val;
use program_runs::Crew;
use schedule_log::Log;
use std::alloc::{AllocError, Global};
use token_pool::Ended;
use walk_text::push_trace;

/// The report of a run of a net by this crew.
pub(crate) fn report_run<C: Crew>(
    alloc: Global,
    net: &Net,
    budget: u32,
    shown: Shown,
    crew: &C,
) -> Result<Report, AllocError>
    requires fit { C.fit crew.now }
    requires runs { Runs net.now }
    requires budget { IsBudget budget }
    requires workers { IsWorkers (C.count crew.now) }
    requires reads { (moves : ℕ) (numbers : List ℕ) → C.reads crew.now moves numbers → NumbersOf shown.progress moves numbers }
    ensures { IfOk result (λ r. (calling : Calling) (t : TermTree) → RunsAs calling t net.now →
        ReportsRun (C.count crew.now) budget calling shown t (output_of r)) }
{
    let (ended, numbers) = crew.run(alloc, net, budget)?;
    let report = report_ended(alloc, &ended, &numbers, crew.workers(), shown);
    drop(ended);
    drop(numbers);
    report
}

/// The report of a run that is over, of which these numbers were read.
fn report_ended(
    alloc: Global,
    ended: &Ended,
    numbers: &[u64],
    workers: u32,
    shown: Shown,
) -> Result<Report, AllocError>
    requires workers { IsWorkers workers }
    requires booked { BookedWithin workers ended.now.log.entries }
    ensures fits { IfOk result (λ r. AnswerFits ended.now.answer) }
    ensures text { IfOk result (λ r. r.text.items ≡ run_report ended.now.answer ended.now.log.entries workers shown.schedule shown.tally) }
    ensures notes { IfOk result (λ r. r.notes.items ≡ progress_lines numbers.now) }
    ensures status { IfOk result (λ r. r.status ≡ replay_status ended.now.answer) }
{
    let notes = progress_lines(alloc, numbers)?;
    let text = run_report(
        alloc,
        ended.answer,
        &ended.log,
        workers,
        Parts {
            schedule: shown.schedule,
            tally: shown.tally,
        },
    )?;
    Ok(Report {
        text,
        notes,
        status: status_of(ended.answer),
    })
}

/// The report of a run of a net by this crew, and behind it this part of the run's trace.
pub(crate) fn report_trace<C: Crew>(
    alloc: Global,
    net: &Net,
    budget: u32,
    window: Window,
    crew: &C,
) -> Result<Report, AllocError>
    requires fit { C.fit crew.now }
    requires runs { Runs net.now }
    requires budget { IsBudget budget }
    requires workers { IsWorkers (C.count crew.now) }
    ensures { IfOk result (λ r. (calling : Calling) (t : TermTree) → RunsAs calling t net.now →
        ReportsTrace (C.count crew.now) budget calling window t (output_of r)) }
{
    let (walked, _) = crew.run(alloc, net, budget)?;
    let answer = walked.answer;
    let text = told_walk(
        alloc,
        net,
        answer,
        &walked.log,
        crew.workers(),
        budget,
        window,
    );
    drop(walked);
    Ok(plain(alloc, text?, status_of(answer)))
}

/// The lines of a run, and this part of the trace of its log.
fn told_walk(
    alloc: Global,
    net: &Net,
    answer: Option<Val>,
    log: &Log,
    workers: u32,
    budget: u32,
    window: Window,
) -> Result<Vec<u8>, AllocError>
    requires runs { Runs net.now }
    requires workers { IsWorkers workers }
    requires budget { IsBudget budget }
    requires run { IsRun net.now workers budget answer log.now.entries }
    ensures { IfOk result (λ v. v.items ≡ run_report answer log.now.entries workers false false ++
        trace_text net.now log.now.entries window.from window.most) }
{
    let mut text = run_report(
        alloc,
        answer,
        log,
        workers,
        Parts {
            schedule: false,
            tally: false,
        },
    )?;
    push_trace(alloc, &mut text, net, log, window.from, window.most)?;
    Ok(text)
}

/// 0 where there is an answer, and 5 where there is none.
pub fn status_of(answer: Option<Val>) -> u8
    ensures { result ≡ replay_status answer }
{
    match answer {
        Some(_) => 0,
        None => 5,
    }
}
