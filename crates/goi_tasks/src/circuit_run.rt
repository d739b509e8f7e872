//! The run of a program's circuit.

ghost use Rattle.std.specs.Prelude.{◌≡◌, ◌++◌, suc, IfOk, IfErr, OnOk, map};
ghost use Rattle.verilog_tree.specs.Views.{item_of};
ghost use Rattle.circuit_runs.specs.Running.{ComesOf};
ghost use Rattle.circuit_runs.specs.Waves.{edges_of};
ghost use Rattle.verilog_waves.specs.Dump.{dump};
ghost use Rattle.goi_jobs.specs.Ranges.{IsCells, IsForks};
ghost use Rattle.goi_tasks.specs.Circuits.{IsTold, ReportsCircuit, answer_of, is_full};
ghost use Rattle.goi_tasks.specs.Parts.{IsCircuitRun};
ghost use Rattle.goi_tasks.specs.Seen.{output_of};
ghost use Rattle.goi_tasks.specs.Programs.{FaultyText};
ghost use Rattle.goi_tasks.specs.Stops.{StopsFor};
ghost use Rattle.program_runs.specs.Programs.{OfProgram, number};

use crate::report::{Report, plain};
use crate::running::status_of;
use crate::stop::Stop;
use bumpalo::Bump;
use circuit_made::circuit_items;
use circuit_runs::{Outcome, law_program_runs, law_same_end, run_items};
use goi_reports::cycles_report;
use net_build::Net;
use pcf_values::Val;
use program_runs::{Calling, net_for};
use std::alloc::{AllocError, Global};
use verilog_tree::Item;
use verilog_waves::push_waves;

/// Which circuit of a program runs, for how long, and what is told of it.
#[derive(Clone, Copy)]
pub(crate) struct CircuitRun {
    /// How many cells it has.
    pub cells: u32,
    /// How many forks can be open at once.
    pub forks: u32,
    /// The most cycles.
    pub budget: u32,
    /// Whether what its registers hold is told in place of its answer.
    pub waves: bool,
}

/// What the run of the circuit of a text's program comes to, whose type is `nat`.
pub(crate) fn report_circuit_run(
    alloc: Global,
    bytes: &[u8],
    run: CircuitRun,
) -> Result<Report, Stop>
    requires cells { IsCells run.cells }
    requires forks { IsForks run.forks }
    ensures report { IfOk result (λ r. OfProgram number bytes.now
        (λ tree t A. ReportsCircuit run.cells run.forks run.budget run.waves t (output_of r))) }
    ensures fault { IfErr result (λ e. StopsFor (FaultyText number bytes.now) e) }
{
    law_program_runs();
    let net = net_for(alloc, bytes, Calling::ByName)?;
    let report = report_net_run(alloc, &net, run);
    drop(net);
    Ok(report?)
}

/// What the run of a net's circuit comes to.
fn report_net_run(alloc: Global, net: &Net, run: CircuitRun) -> Result<Report, AllocError>
    requires cells { IsCells run.cells }
    requires forks { IsForks run.forks }
    ensures { IfOk result (λ r. IsCircuitRun net.now run.cells run.forks run.budget run.waves (output_of r)) }
{
    let bump = Bump::new(alloc);
    let items = circuit_items(alloc, &bump, net, &[], run.cells, run.forks)?;
    let told = run_items(alloc, items, run.budget.into())?;
    let text = told_text(alloc, items, run, told)?;
    Ok(plain(alloc, text, status_of(answer_of(told))))
}

/// What is told of a run of a module that came to this.
fn told_text<'a>(
    alloc: Global,
    items: &'a [Item<'a>],
    run: CircuitRun,
    told: Outcome,
) -> Result<Vec<u8>, AllocError>
    requires { ComesOf (map item_of items.now) run.budget told }
    ensures { IfOk result (λ v. IsTold run.waves (map item_of items.now) run.budget told v.items) }
{
    if run.waves {
        waves_text(alloc, items, run, told)
    } else {
        cycles_report(
            alloc,
            answer_of(told),
            edges_of(run.budget, told),
            is_full(told),
        )
    }
}

/// What a module holds in a run that came to this, edge by edge.
fn waves_text<'a>(
    alloc: Global,
    items: &'a [Item<'a>],
    run: CircuitRun,
    told: Outcome,
) -> Result<Vec<u8>, AllocError>
    requires { ComesOf (map item_of items.now) run.budget told }
    ensures { IfOk result (λ v. v.items ≡ dump "goi" (map item_of items.now) (suc (edges_of run.budget told))) }
{
    let mut text = Vec::new(alloc);
    push_dump(alloc, &mut text, items, run, told)?;
    Ok(text)
}

/// Appends what a module holds in a run that came to this, edge by edge.
fn push_dump<'a>(
    alloc: Global,
    text: &mut Vec<u8>,
    items: &'a [Item<'a>],
    run: CircuitRun,
    told: Outcome,
) -> Result<(), AllocError>
    requires { ComesOf (map item_of items.now) run.budget told }
    ensures { OnOk result (text.new.items ≡ text.old.items
        ++ dump "goi" (map item_of items.now) (suc (edges_of run.budget told))) }
{
    law_same_end();
    push_waves(alloc, text, b"goi", items, run.budget.into())?;
    Ok(())
}

/// The value of a run, if it ended with one.
fn answer_of(told: Outcome) -> Option<Val>
    ensures { result ≡ answer_of told }
{
    match told {
        Outcome::Ended(value, _, _) => Some(value),
        Outcome::Full(_) | Outcome::Odd(_) | Outcome::Waits => None,
    }
}

/// How many edges it made behind that of the reset, of so many that were allowed.
fn edges_of(most: u32, told: Outcome) -> u64
    ensures { result ≡ edges_of most told }
{
    match told {
        Outcome::Ended(_, _, k) | Outcome::Full(k) | Outcome::Odd(k) => k,
        Outcome::Waits => most.into(),
    }
}

/// Whether it ended since the cells or the forks were too few, or since there was no row.
fn is_full(told: Outcome) -> bool
    ensures { result ≡ is_full told }
{
    match told {
        Outcome::Full(_) => true,
        Outcome::Ended(_, _, _) | Outcome::Odd(_) | Outcome::Waits => false,
    }
}
