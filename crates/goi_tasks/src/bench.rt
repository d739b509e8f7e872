//! The bench of a program's circuit.

ghost use Rattle.std.specs.Prelude.{◌≡◌, IfOk, IfErr};
ghost use Rattle.pcf_values.specs.Terms.{TermTree};
ghost use Rattle.interleave_laws.specs.Runs.{Runs};
ghost use Rattle.goi_jobs.specs.Ranges.{IsBudget};
ghost use Rattle.goi_jobs.specs.declared.verilog.Verilog.TheVariants.{Bench};
ghost use Rattle.program_runs.specs.declared.calling.Calling.TheVariants.{ByName};
ghost use Rattle.program_runs.specs.Nets.{RunsAs};
ghost use Rattle.program_runs.specs.Programs.{number};
ghost use Rattle.goi_tasks.specs.Seen.{output_of};
ghost use Rattle.goi_tasks.specs.Programs.{FaultyText};
ghost use Rattle.goi_tasks.specs.Stops.{StopsFor};
ghost use Rattle.goi_tasks.specs.Verilogs.{ReportsBench, ReportsVerilog, bench_report};

use crate::report::{Report, plain};
use crate::running::status_of;
use crate::stop::Stop;
use circuit_calls::print_bench;
use goi_reports::replay_report;
use net_build::Net;
use newest_runs::newest_run;
use pcf_values::Val;
use program_runs::{Calling, net_for};
use std::alloc::{AllocError, Global};

/// The bench of the circuit of a text's program, whose type is `nat` and whose circuit's module has this name: the run is allowed so many
/// moves.
pub(crate) fn report_bench(
    alloc: Global,
    bytes: &[u8],
    name: &[u8],
    budget: u32,
) -> Result<Report, Stop>
    requires budget { IsBudget budget }
    ensures report { IfOk result (λ r. ReportsVerilog name.now (Bench budget) bytes.now (output_of r)) }
    ensures fault { IfErr result (λ e. StopsFor (FaultyText number bytes.now) e) }
{
    let net = net_for(alloc, bytes, Calling::ByName)?;
    let report = report_net_bench(alloc, &net, name, budget);
    drop(net);
    Ok(report?)
}

/// The bench of a net's circuit.
fn report_net_bench(
    alloc: Global,
    net: &Net,
    name: &[u8],
    budget: u32,
) -> Result<Report, AllocError>
    requires runs { Runs net.now }
    requires budget { IsBudget budget }
    ensures { IfOk result (λ r. (t : TermTree) → RunsAs ByName t net.now → ReportsBench name.now budget t (output_of r)) }
{
    let needs = newest_run(alloc, net, budget)?;
    let text = bench_of(alloc, name, needs.answer, needs.moves)?;
    Ok(plain(alloc, text, status_of(needs.answer)))
}

/// The bench of a run with this answer after so many moves, or what is told of a run without one.
fn bench_of(
    alloc: Global,
    name: &[u8],
    answer: Option<Val>,
    moves: u32,
) -> Result<Vec<u8>, AllocError>
    ensures { IfOk result (λ v. v.items ≡ bench_report name.now answer moves) }
{
    match answer {
        Some(value) => print_bench(alloc, name, value, moves),
        None => replay_report(alloc, None, moves),
    }
}
