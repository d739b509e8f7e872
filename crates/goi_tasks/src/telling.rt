//! What a run comes to, as numbers.

ghost use Rattle.std.specs.Prelude.{◌≡◌, IfOk, IfErr};
ghost use Rattle.program_runs.specs.Programs.{wanted_by_run};
ghost use Rattle.goi_jobs.specs.Ranges.{IsBudget};
ghost use Rattle.goi_tasks.specs.Programs.{FaultyText};
ghost use Rattle.goi_tasks.specs.Told.{TellsText};
ghost use Rattle.goi_tasks.specs.Stops.{StopsFor};

use crate::stop::Stop;
use pcf_values::Val;
use program_runs::{Calling, Crew, run_text};
use std::alloc::Global;

/// What a run came to.
#[derive(Clone, Copy)]
pub struct ValueAndMoves {
    /// Its value, or none within the budget.
    pub answer: Option<Val>,
    /// How many moves it made; the whole budget where there is no value.
    pub moves: u32,
}

/// What the run of a text's program by this crew comes to within a budget of moves.
///
/// # Errors
///
/// The first fault of the text as a program that runs so. Or it runs out of memory.
pub fn tell_text<C: Crew>(
    alloc: Global,
    bytes: &[u8],
    budget: u32,
    calling: Calling,
    crew: &C,
) -> Result<ValueAndMoves, Stop>
    requires fit { C.fit crew.now }
    requires budget { IsBudget budget }
    ensures told { IfOk result (λ r. TellsText calling budget bytes.now r.answer r.moves) }
    ensures fault { IfErr result (λ e. StopsFor (FaultyText (wanted_by_run calling) bytes.now) e) }
{
    let ended = run_text(alloc, bytes, budget, calling, crew)?;
    let told = ValueAndMoves {
        answer: ended.answer,
        moves: ended.log.len(),
    };
    drop(ended);
    Ok(told)
}
