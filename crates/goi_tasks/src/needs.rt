//! What a program's circuit needs, and who moves in a run with the newest question first.

ghost use Rattle.std.specs.Prelude.{◌≡◌, true, false, IfOk, IfErr};
ghost use Rattle.pcf_values.specs.Terms.{TermTree};
ghost use Rattle.interleave_laws.specs.Runs.{Runs};
ghost use Rattle.goi_jobs.specs.Ranges.{IsBudget};
ghost use Rattle.program_runs.specs.declared.calling.Calling.TheVariants.{ByName};
ghost use Rattle.program_runs.specs.Nets.{RunsAs};
ghost use Rattle.program_runs.specs.Programs.{OfProgram, number};
ghost use Rattle.goi_reports.specs.Booked.{BookedWithin};
ghost use Rattle.goi_reports.specs.Reports.{run_report};
ghost use Rattle.goi_tasks.specs.Seen.{output_of};
ghost use Rattle.goi_tasks.specs.Needs.{ReportsNeeds, ReportsSchedule, counts_text};
ghost use Rattle.goi_tasks.specs.Programs.{FaultyText};
ghost use Rattle.goi_tasks.specs.Stops.{StopsFor};

use crate::report::{Report, plain};
use crate::running::status_of;
use crate::stop::Stop;
use circuit_made::circuit_needs;
use goi_reports::{Parts, needs_report, no_row_report, run_report};
use joined_needs::{Ending, Needs};
use net_build::Net;
use newest_runs::{Scheduled, newest_run, newest_schedule};
use pcf_values::Val;
use program_runs::{Calling, net_for};
use std::alloc::{AllocError, Global};

/// The report of what the circuit of a text's program needs, whose type is `nat`.
pub(crate) fn report_needs(alloc: Global, bytes: &[u8], budget: u32) -> Result<Report, Stop>
    requires budget { IsBudget budget }
    ensures report { IfOk result (λ r. OfProgram number bytes.now (λ tree t A. ReportsNeeds budget t (output_of r))) }
    ensures fault { IfErr result (λ e. StopsFor (FaultyText number bytes.now) e) }
{
    let net = net_for(alloc, bytes, Calling::ByName)?;
    let report = report_counted(alloc, &net, budget);
    drop(net);
    Ok(report?)
}

/// The report of what a net's circuit needs.
fn report_counted(alloc: Global, net: &Net, budget: u32) -> Result<Report, AllocError>
    requires runs { Runs net.now }
    requires budget { IsBudget budget }
    ensures { IfOk result (λ r. (t : TermTree) → RunsAs ByName t net.now → ReportsNeeds budget t (output_of r)) }
{
    let needs = newest_run(alloc, net, budget)?;
    let counts = circuit_needs(alloc, net, &[], &[], budget)?;
    let text = text_of(alloc, needs.answer, needs.moves, counts)?;
    Ok(plain(alloc, text, status_of(needs.answer)))
}

/// The lines of a run with this answer after so many moves, and of the counts of its circuit's run.
fn text_of(
    alloc: Global,
    answer: Option<Val>,
    moves: u32,
    counts: Needs,
) -> Result<Vec<u8>, AllocError>
    ensures { IfOk result (λ v. v.items ≡ counts_text answer moves counts counts.ending) }
{
    match counts.ending {
        Ending::NoRow => no_row_report(alloc, answer, moves),
        Ending::Answered(_) | Ending::Beyond => needs_report(
            alloc,
            answer,
            moves,
            counts.cells,
            counts.forks,
            counts.cycles,
        ),
    }
}

/// The report of the schedule by which the circuit of a text's program moves, whose type is `nat`.
pub(crate) fn report_schedule(alloc: Global, bytes: &[u8], budget: u32) -> Result<Report, Stop>
    requires budget { IsBudget budget }
    ensures report { IfOk result (λ r. OfProgram number bytes.now (λ tree t A. ReportsSchedule budget t (output_of r))) }
    ensures fault { IfErr result (λ e. StopsFor (FaultyText number bytes.now) e) }
{
    let net = net_for(alloc, bytes, Calling::ByName)?;
    let report = report_scheduled(alloc, &net, budget);
    drop(net);
    Ok(report?)
}

/// The report of the schedule by which a net's circuit moves.
fn report_scheduled(alloc: Global, net: &Net, budget: u32) -> Result<Report, AllocError>
    requires runs { Runs net.now }
    requires budget { IsBudget budget }
    ensures { IfOk result (λ r. (t : TermTree) → RunsAs ByName t net.now → ReportsSchedule budget t (output_of r)) }
{
    let made = newest_schedule(alloc, net, budget)?;
    let answer = made.answer;
    let text = scheduled_text(alloc, &made);
    drop(made);
    Ok(plain(alloc, text?, status_of(answer)))
}

/// The lines of such a run, all of whose moves are worker 0's.
fn scheduled_text(alloc: Global, made: &Scheduled) -> Result<Vec<u8>, AllocError>
    requires { BookedWithin 1 made.now.log.entries }
    ensures { IfOk result (λ v. v.items ≡ run_report made.now.answer made.now.log.entries 1 true false) }
{
    run_report(
        alloc,
        made.answer,
        &made.log,
        1,
        Parts {
            schedule: true,
            tally: false,
        },
    )
}
