//! A call of a text's function at numbers: the report, or the first fault.

ghost use Rattle.std.specs.Prelude.{ℕ, List, IfOk, IfErr, length};
ghost use Rattle.function_runs.specs.Functions.{FaultyFunction};
ghost use Rattle.program_runs.specs.declared.calling.Calling.TheVariants.{ByName};
ghost use Rattle.program_runs.specs.Nets.{RunsAs};
ghost use Rattle.program_runs.specs.NoRuns.{NoRunFor};
ghost use Rattle.goi_jobs.specs.Ranges.{IsBudget, IsWorkers};
ghost use Rattle.goi_tasks.specs.Calls.{OfFunction, ReportsCall, FaultyCall};
ghost use Rattle.goi_tasks.specs.Parts.{NumbersOf};
ghost use Rattle.goi_tasks.specs.Seen.{output_of};
ghost use Rattle.goi_tasks.specs.Stops.{StopsFor};

use crate::report::Report;
use crate::running::report_run;
use crate::stop::Stop;
use adequacy_laws::law_never_stuck;
use function_runs::compile;
use goi_jobs::Shown;
use net_build::Net;
use program_runs::{Crew, NoRun, law_tells};
use std::alloc::Global;

/// The report of a run of a text's function at these numbers, by this crew.
///
/// # Errors
///
/// The first fault of the text as a function of so many numbers. Or it runs out of memory.
pub fn report_call<C: Crew>(
    alloc: Global,
    bytes: &[u8],
    numbers: &[u64],
    budget: u32,
    shown: Shown,
    crew: &C,
) -> Result<Report, Stop>
    requires budget { IsBudget budget }
    requires fit { C.fit crew.now }
    requires workers { IsWorkers (C.count crew.now) }
    requires reads { (moves : ℕ) (read : List ℕ) → C.reads crew.now moves read → NumbersOf shown.progress moves read }
    ensures report { IfOk result (λ r. ReportsCall (C.count crew.now) budget shown numbers.now bytes.now (output_of r)) }
    ensures fault { IfErr result (λ e. StopsFor (FaultyCall numbers.now bytes.now) e) }
{
    let net = net_at(alloc, bytes, numbers)?;
    let report = report_run(alloc, &net, budget, shown, crew);
    drop(net);
    Ok(report?)
}

/// The net of a text's function at these numbers.
fn net_at(alloc: Global, bytes: &[u8], numbers: &[u64]) -> Result<Net, NoRun>
    ensures net { IfOk result (λ net. OfFunction numbers.now bytes.now (λ t. RunsAs ByName t net)) }
    ensures fault { IfErr result (λ e. NoRunFor (FaultyFunction (length numbers.now) bytes.now) e) }
{
    law_never_stuck();
    law_tells();
    let function = compile(alloc, bytes, numbers.len())?;
    Ok(function.into_net(numbers))
}
