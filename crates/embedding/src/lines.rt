//! The lines of runs in one call.

ghost use Rattle.std.specs.Prelude.{◌≡◌, ◌≤◌, IfOk, IfErr, codes, string_bytes};
ghost use Rattle.pcf_values.specs.Most.{most_budget, most_workers};
ghost use Rattle.interleave_laws.specs.Runs.{Runs};
ghost use Rattle.net_runs.specs.IsRun.{IsRun, IsFirstWorkers};
ghost use Rattle.program_runs.specs.declared.calling.Calling.TheVariants.{ByName};
ghost use Rattle.program_runs.specs.NoRuns.{NoRunFor};
ghost use Rattle.program_runs.specs.Programs.{number, FaultyProgram};
ghost use Rattle.program_runs.specs.RunsText.{RunsText};
ghost use Rattle.embedding.specs.Lines.{budget, RunLine, value_text, run_line, refused_line};

use crate::place::place_of;
use gate_workers::Gate;
use net_build::Net;
use net_runs::run_net;
use pcf_values::Val;
use program_runs::{Alone, Calling, NoRun, ProgramFault, Several, run_text};
use std::alloc::{AllocError, Global};
use std::sync::Wait;
use std::thread::Threads;
use token_pool::Ended;

/// How many moves a run may make.
pub(crate) const BUDGET: u32 = 10_000;

/// How many workers run together.
const WORKERS: u32 = 4;

/// The line of a text's run by one worker.
pub(crate) fn alone_line(alloc: Global, bytes: &[u8]) -> Result<String, AllocError>
    ensures { IfOk result (λ text. RunLine (codes "alone") bytes.now (string_bytes text)) }
{
    match run_text(alloc, bytes, BUDGET, Calling::ByName, &Alone) {
        Ok(ended) => {
            let line = run_line(alloc, "alone", ended.answer, ended.log.len());
            drop(ended);
            line
        }
        Err(NoRun::Fault(fault)) => refused_line(alloc, "alone", fault),
        Err(NoRun::Memory) => Err(AllocError),
    }
}

/// The line of a text's run by several workers.
pub(crate) fn together_line<R: Threads + Wait + Sync, G: Gate>(
    rt: &R,
    alloc: Global,
    bytes: &[u8],
    gate: &G,
) -> Result<String, AllocError>
    ensures { IfOk result (λ text. RunLine (codes "together") bytes.now (string_bytes text)) }
{
    match run_together(rt, alloc, bytes, WORKERS, gate) {
        Ok(ended) => {
            let line = run_line(alloc, "together", ended.answer, ended.log.len());
            drop(ended);
            line
        }
        Err(NoRun::Fault(fault)) => refused_line(alloc, "together", fault),
        Err(NoRun::Memory) => Err(AllocError),
    }
}

/// A text's run by so many workers.
///
/// # Errors
///
/// The first fault of the text, exactly when it has one. Or it runs out of memory.
fn run_together<R: Threads + Wait + Sync, G: Gate>(
    rt: &R,
    alloc: Global,
    bytes: &[u8],
    workers: u32,
    gate: &G,
) -> Result<Ended, NoRun>
    requires workers { (1 ≤ workers) × (workers ≤ most_workers) }
    ensures run { IfOk result (λ r. RunsText ByName workers budget bytes.now r.answer r.log.entries) }
    ensures fault { IfErr result (λ e. NoRunFor (FaultyProgram number bytes.now) e) }
{
    let run = |net: &Net, budget: u32| -> Result<Ended, AllocError>
        requires runs { Runs net.now }
        requires budget { (1 ≤ budget) × (budget ≤ most_budget) }
        requires workers { (1 ≤ workers) × (workers ≤ most_workers) }
        ensures run { IfOk result (λ e. IsRun net.now workers budget e.answer e.log.entries) }
        ensures alone { IfOk result (λ e. workers ≡ 1 → IsFirstWorkers net.now budget e.log.entries) }
    { run_net(rt, alloc, net, budget, workers, gate) };
    run_text(
        alloc,
        bytes,
        BUDGET,
        Calling::ByName,
        &Several { workers, run },
    )
}

/// The line of an answer, or of none, after so many moves.
pub(crate) fn run_line(
    alloc: Global,
    way: &str,
    answer: Option<Val>,
    moves: u32,
) -> Result<String, AllocError>
    ensures { IfOk result (λ text. string_bytes text ≡ run_line way.now answer moves) }
{
    let value = value_text(alloc, answer)?;
    format!(in alloc; "{way}: {value} after {moves} moves\n")
}

/// A value as text.
fn value_text(alloc: Global, answer: Option<Val>) -> Result<String, AllocError>
    ensures { IfOk result (λ text. string_bytes text ≡ value_text answer) }
{
    match answer {
        Some(Val::Number(n)) => format!(in alloc; "{n}"),
        Some(Val::Overflow) => format!(in alloc; "too large"),
        None => format!(in alloc; "no value"),
    }
}

/// The line of a fault, with its place where it has one.
pub(crate) fn refused_line(
    alloc: Global,
    way: &str,
    fault: ProgramFault,
) -> Result<String, AllocError>
    ensures { IfOk result (λ text. string_bytes text ≡ refused_line way.now fault) }
{
    match place_of(fault) {
        Some(at) => format!(in alloc; "{way}: refused at byte {at}\n"),
        None => format!(in alloc; "{way}: refused\n"),
    }
}
