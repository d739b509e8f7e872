//! A task on a text: the report, or the first fault.

ghost use Rattle.std.specs.Prelude.{◌≡◌, ℕ, List, IfOk, IfErr};
ghost use Rattle.program_runs.specs.Programs.{wanted_by_run};
ghost use Rattle.goi_jobs.specs.Ranges.{IsBudget, IsWorkers};
ghost use Rattle.goi_jobs.specs.declared.task.Task.TheVariants.{Run, RunNet, Trace};
ghost use Rattle.goi_tasks.specs.NetFiles.{FaultyListing};
ghost use Rattle.goi_tasks.specs.Parts.{NumbersOf};
ghost use Rattle.goi_tasks.specs.Seen.{output_of};
ghost use Rattle.goi_tasks.specs.Programs.{FaultyText};
ghost use Rattle.goi_tasks.specs.Stops.{StopsFor};
ghost use Rattle.goi_tasks.specs.Tasks.{ReportsText, FaultyFor};
ghost use Rattle.goi_jobs.specs.Tasks.{IsWithin, progress_of};

use crate::net_file::net_of_listing;
use crate::program::{report_check, report_net};
use crate::report::Report;
use crate::running::{report_run, report_trace};
use crate::span::report_span;
use crate::steps::report_steps;
use crate::stop::Stop;
use goi_jobs::{Shown, Task, Window};
use goi_reports::RoundParts;
use program_runs::{Calling, Crew, net_for};
use std::alloc::Global;

/// The report of a task on a text, or the text's first fault. What is run is run by this crew, of whose runs is read what the task tells.
///
/// # Errors
///
/// The first fault of the text as one for this task. Or it runs out of memory.
pub fn report_text<C: Crew>(
    alloc: Global,
    bytes: &[u8],
    task: Task,
    crew: &C,
) -> Result<Report, Stop>
    requires within { IsWithin task }
    requires fit { C.fit crew.now }
    requires workers { IsWorkers (C.count crew.now) }
    requires reads { (moves : ℕ) (numbers : List ℕ) → C.reads crew.now moves numbers → NumbersOf (progress_of task) moves numbers }
    ensures report { IfOk result (λ r. ReportsText (C.count crew.now) task bytes.now (output_of r)) }
    ensures fault { IfErr result (λ e. StopsFor (FaultyFor task bytes.now) e) }
{
    match task {
        Task::Run {
            budget,
            calling,
            shown,
        } => report_program(alloc, bytes, budget, calling, shown, crew),
        Task::Check { term } => report_check(alloc, bytes, term),
        Task::ShowNet => report_net(alloc, bytes),
        Task::Span {
            budget,
            calling,
            profile,
            schedule,
        } => report_span(
            alloc,
            bytes,
            budget,
            calling,
            RoundParts { profile, schedule },
        ),
        Task::Steps { budget, window } => report_steps(alloc, bytes, budget, window),
        Task::RunNet { budget, shown } => report_listing(alloc, bytes, budget, shown, crew),
        Task::Trace {
            budget,
            calling,
            window,
        } => report_walk(alloc, bytes, budget, calling, window, crew),
    }
}

/// The report of a run of a text's program.
fn report_program<C: Crew>(
    alloc: Global,
    bytes: &[u8],
    budget: u32,
    calling: Calling,
    shown: Shown,
    crew: &C,
) -> Result<Report, Stop>
    requires budget { IsBudget budget }
    requires fit { C.fit crew.now }
    requires workers { IsWorkers (C.count crew.now) }
    requires reads { (moves : ℕ) (numbers : List ℕ) → C.reads crew.now moves numbers → NumbersOf shown.progress moves numbers }
    ensures report { IfOk result (λ r. ReportsText (C.count crew.now) (Run budget calling shown) bytes.now (output_of r)) }
    ensures fault { IfErr result (λ e. StopsFor (FaultyText (wanted_by_run calling) bytes.now) e) }
{
    let net = net_for(alloc, bytes, calling)?;
    let report = report_run(alloc, &net, budget, shown, crew);
    drop(net);
    Ok(report?)
}

/// The report of a run of the program whose net a text lists.
fn report_listing<C: Crew>(
    alloc: Global,
    bytes: &[u8],
    budget: u32,
    shown: Shown,
    crew: &C,
) -> Result<Report, Stop>
    requires budget { IsBudget budget }
    requires fit { C.fit crew.now }
    requires workers { IsWorkers (C.count crew.now) }
    requires reads { (moves : ℕ) (numbers : List ℕ) → C.reads crew.now moves numbers → NumbersOf shown.progress moves numbers }
    ensures report { IfOk result (λ r. ReportsText (C.count crew.now) (RunNet budget shown) bytes.now (output_of r)) }
    ensures fault { IfErr result (λ e. StopsFor (FaultyListing bytes.now) e) }
{
    let net = net_of_listing(alloc, bytes)?;
    let report = report_run(alloc, &net, budget, shown, crew);
    drop(net);
    Ok(report?)
}

/// The report of a run of a text's program, and behind it this part of the run's trace.
fn report_walk<C: Crew>(
    alloc: Global,
    bytes: &[u8],
    budget: u32,
    calling: Calling,
    window: Window,
    crew: &C,
) -> Result<Report, Stop>
    requires budget { IsBudget budget }
    requires fit { C.fit crew.now }
    requires workers { IsWorkers (C.count crew.now) }
    ensures report { IfOk result (λ r. ReportsText (C.count crew.now) (Trace budget calling window) bytes.now (output_of r)) }
    ensures fault { IfErr result (λ e. StopsFor (FaultyText (wanted_by_run calling) bytes.now) e) }
{
    let net = net_for(alloc, bytes, calling)?;
    let report = report_trace(alloc, &net, budget, window, crew);
    drop(net);
    Ok(report?)
}
