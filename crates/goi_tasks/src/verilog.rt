//! What is printed of a text's circuit: the report, or the first fault.

ghost use Rattle.std.specs.Prelude.{IfOk, IfErr};
ghost use Rattle.goi_jobs.specs.Verilogs.{IsPrinted};
ghost use Rattle.goi_tasks.specs.Seen.{output_of};
ghost use Rattle.goi_tasks.specs.Stops.{StopsFor};
ghost use Rattle.goi_tasks.specs.Verilogs.{ReportsVerilog, FaultyVerilog};

use crate::bench::report_bench;
use crate::circuit::report_circuit;
use crate::circuit_run::{CircuitRun, report_circuit_run};
use crate::needs::{report_needs, report_schedule};
use crate::report::Report;
use crate::stop::Stop;
use goi_jobs::Verilog;
use std::alloc::Global;

/// The report with what is printed of a text's circuit, whose module has this name:
/// `verilog_names::is_module_name` tells which names a tool takes.
///
/// # Errors
///
/// The first fault of the text as one for which this can be printed. Or it runs out of memory.
pub fn report_verilog(
    alloc: Global,
    bytes: &[u8],
    name: &[u8],
    verilog: Verilog,
) -> Result<Report, Stop>
    requires printed { IsPrinted verilog }
    ensures report { IfOk result (λ r. ReportsVerilog name.now verilog bytes.now (output_of r)) }
    ensures fault { IfErr result (λ e. StopsFor (FaultyVerilog verilog bytes.now) e) }
{
    match verilog {
        Verilog::Circuit {
            cells,
            forks,
            handshake,
        } => report_circuit(alloc, bytes, name, cells, forks, handshake),
        Verilog::Run {
            cells,
            forks,
            budget,
        } => report_circuit_run(
            alloc,
            bytes,
            CircuitRun {
                cells,
                forks,
                budget,
                waves: false,
            },
        ),
        Verilog::Waves {
            cells,
            forks,
            budget,
        } => report_circuit_run(
            alloc,
            bytes,
            CircuitRun {
                cells,
                forks,
                budget,
                waves: true,
            },
        ),
        Verilog::Bench { budget } => report_bench(alloc, bytes, name, budget),
        Verilog::Needs { budget } => report_needs(alloc, bytes, budget),
        Verilog::Schedule { budget } => report_schedule(alloc, bytes, budget),
    }
}
