//! The run of a text's program.

ghost use Rattle.std.specs.Prelude.{◌≤◌, IfOk, IfErr};
ghost use Rattle.pcf_values.specs.Most.{most_budget};
ghost use Rattle.program_runs.specs.NoRuns.{NoRunFor};
ghost use Rattle.program_runs.specs.Programs.{wanted_by_run, FaultyProgram};
ghost use Rattle.program_runs.specs.RunsText.{RunsText};

use crate::calling::Calling;
use crate::crew::Crew;
use crate::net::net_for;
use crate::no_run::NoRun;
use std::alloc::Global;
use token_pool::Ended;

/// The run of a text's program within a budget of moves, by name or by value: its value, or none within the budget, and its log. As many
/// moves were made as the log has entries. Value and number of moves are the same whoever runs it.
///
/// # Errors
///
/// The first fault of the text, exactly when it has one: it isn't read, it isn't typed, its type isn't `nat`, or it runs by value and has
/// no translation. Or it runs out of memory.
pub fn run_text<C: Crew>(
    alloc: Global,
    bytes: &[u8],
    budget: u32,
    calling: Calling,
    crew: &C,
) -> Result<Ended, NoRun>
    requires fit { C.fit crew.now }
    requires budget { (1 ≤ budget) × (budget ≤ most_budget) }
    ensures run { IfOk result (λ r. RunsText calling (C.count crew.now) budget bytes.now r.answer r.log.entries) }
    ensures fault { IfErr result (λ e. NoRunFor (FaultyProgram (wanted_by_run calling) bytes.now) e) }
{
    let net = net_for(alloc, bytes, calling)?;
    let run = crew.run(alloc, &net, budget);
    drop(net);
    let (ended, _) = run?;
    Ok(ended)
}
