//! The circuit of a program, or of a function of numbers.

ghost use Rattle.std.specs.Prelude.{◌≡◌, ◌++◌, IfOk, IfErr, OnOk};
ghost use Rattle.circuit_calls.specs.CallText.{call_text};
ghost use Rattle.goi_jobs.specs.Ranges.{IsCells, IsForks};
ghost use Rattle.goi_jobs.specs.declared.verilog.Verilog.TheVariants.{Circuit};
ghost use Rattle.goi_reports.specs.Reports.{where_asked};
ghost use Rattle.goi_tasks.specs.Seen.{output_of};
ghost use Rattle.goi_tasks.specs.Calls.{FaultyAnyFunction};
ghost use Rattle.goi_tasks.specs.Stops.{StopsFor};
ghost use Rattle.goi_tasks.specs.Verilogs.{PrintsFunction, PrintsModules, ReportsVerilog};

use crate::report::{Report, plain};
use crate::stop::Stop;
use circuit_calls::push_call;
use circuit_made::{Ports, print_circuit};
use function_runs::{Function, compile_any};
use std::alloc::{AllocError, Global};

/// The circuit of the net of a text's program, as a module of this name with so many cells and forks, whose type is `nat` or
/// `nat -> .. -> nat`: it has a port for each argument. Behind it stands the module by which it is called, where that is asked for.
pub(crate) fn report_circuit(
    alloc: Global,
    bytes: &[u8],
    name: &[u8],
    cells: u32,
    forks: u32,
    handshake: bool,
) -> Result<Report, Stop>
    requires cells { IsCells cells }
    requires forks { IsForks forks }
    ensures report { IfOk result (λ r. ReportsVerilog name.now (Circuit cells forks handshake) bytes.now (output_of r)) }
    ensures fault { IfErr result (λ e. StopsFor (FaultyAnyFunction bytes.now) e) }
{
    let function = compile_any(alloc, bytes)?;
    let text = text_of(alloc, function, name, cells, forks, handshake)?;
    Ok(plain(alloc, text, 0))
}

/// The text of a function's circuit, and of the module by which it is called, where that is asked for.
fn text_of(
    alloc: Global,
    function: Function,
    name: &[u8],
    cells: u32,
    forks: u32,
    handshake: bool,
) -> Result<Vec<u8>, AllocError>
    requires cells { IsCells cells }
    requires forks { IsForks forks }
    ensures { IfOk result (λ v. PrintsModules name.now cells forks handshake function.0 function.1 v.items) }
{
    let arguments = function.arguments();
    let mut text = circuit_of(alloc, function, name, cells, forks)?;
    push_asked_call(&mut text, name, arguments, handshake)?;
    Ok(text)
}

/// Appends the module by which a circuit with so many arguments is called, where that is asked for.
fn push_asked_call(
    text: &mut Vec<u8>,
    name: &[u8],
    arguments: u32,
    handshake: bool,
) -> Result<(), AllocError>
    ensures { OnOk result (text.new.items ≡ text.old.items ++ where_asked handshake (call_text name.now arguments)) }
{
    if handshake {
        push_call(text, name, arguments)?;
    }
    Ok(())
}

/// The text of a function's circuit.
fn circuit_of(
    alloc: Global,
    function: Function,
    name: &[u8],
    cells: u32,
    forks: u32,
) -> Result<Vec<u8>, AllocError>
    requires cells { IsCells cells }
    requires forks { IsForks forks }
    ensures { IfOk result (λ v. PrintsFunction name.now cells forks function.0 function.1 v.items) }
{
    let ports = Ports {
        first: function.first(),
        count: function.arguments(),
    };
    let net = function.into_net_at_zeros();
    let text = print_circuit(alloc, &net, cells, forks, name, ports);
    drop(net);
    Ok(text?)
}
