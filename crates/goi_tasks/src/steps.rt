//! The reduction of a program, step by step.

ghost use Rattle.std.specs.Prelude.{◌≡◌, ◌≤◌, ◌↔◌, ℕ, IsTrue, IfOk, IfErr};
ghost use Rattle.pcf_values.specs.Terms.{nat};
ghost use Rattle.pcf_values.specs.Named.{named_height};
ghost use Rattle.pcf_values.specs.Views.{named_of};
ghost use Rattle.program_runs.specs.Programs.{number, FaultyTree};
ghost use Rattle.goi_jobs.specs.declared.task.Task.TheVariants.{Steps};
ghost use Rattle.goi_tasks.specs.Seen.{output_of};
ghost use Rattle.goi_tasks.specs.Programs.{FaultyText, IsProgramFault};
ghost use Rattle.goi_tasks.specs.Reductions.{most_step_nodes, reduction_output};
ghost use Rattle.goi_tasks.specs.Parts.{ReducesTree};
ghost use Rattle.goi_tasks.specs.Stops.{StopsFor};
ghost use Rattle.goi_tasks.specs.Tasks.{ReportsText};

use crate::fault::Fault;
use crate::report::{Report, plain};
use crate::running::status_of;
use crate::stop::Stop;
use adequacy_laws::law_adequacy;
use goi_jobs::Window;
use pcf_reader::{law_bounded, read_program};
use pcf_types::{ground, law_correct, resolve_and_type};
use pcf_values::{Named, Typed};
use program_runs::ProgramFault;
use std::alloc::{AllocError, Global};
use step_text::{law_none_is_limit, law_told_is_meant, push_steps};

/// The most nodes of a term that is rewritten.
const STEP_NODES: u64 = 4096;

/// The reduction of a text's program, whose type is `nat`, within so many steps, with this part of its terms.
pub(crate) fn report_steps(
    alloc: Global,
    bytes: &[u8],
    budget: u32,
    window: Window,
) -> Result<Report, Stop>
    ensures report { IfOk result (λ r. (workers : ℕ) → ReportsText workers (Steps budget window) bytes.now (output_of r)) }
    ensures fault { IfErr result (λ e. StopsFor (FaultyText number bytes.now) e) }
{
    law_bounded();
    let tree = read_program(alloc, bytes)?;
    let report = reduce_tree(alloc, &tree, budget, window);
    drop(tree);
    report
}

/// The reduction of a tree.
fn reduce_tree(alloc: Global, tree: &Named, budget: u32, window: Window) -> Result<Report, Stop>
    requires height { named_height (named_of tree.now) ≤ 2600 }
    ensures report { IfOk result (λ r. ReducesTree budget window (named_of tree.now) (output_of r)) }
    ensures fault { IfErr result (λ e. StopsFor (IsProgramFault (FaultyTree number (named_of tree.now))) e) }
{
    law_correct();
    law_told_is_meant();
    law_none_is_limit();
    law_adequacy();
    let program = resolve_and_type(alloc, tree)?;
    let is_number = is_number(&program);
    drop(program);
    if !is_number {
        return Err(Stop::Fault(Fault::Program(ProgramFault::NotGround)));
    }
    Ok(reduction_of(alloc, tree, budget, window)?)
}

/// Whether a program's type is `nat`.
fn is_number(program: &Typed) -> bool
    ensures { IsTrue result ↔ (program.now.1 ≡ nat) }
{
    ground(program).is_ok()
}

/// The report of the reduction of a tree.
fn reduction_of(
    alloc: Global,
    tree: &Named,
    budget: u32,
    window: Window,
) -> Result<Report, AllocError>
    ensures { IfOk result (λ r. output_of r ≡ reduction_output budget window (named_of tree.now)) }
{
    let mut text = Vec::new(alloc);
    let value = push_steps(
        alloc,
        &mut text,
        tree,
        u64::from(window.from),
        u64::from(window.most),
        STEP_NODES,
        u64::from(budget),
    )?;
    Ok(plain(alloc, text, status_of(value)))
}
