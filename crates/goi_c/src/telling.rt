//! Runs, as numbers.

ghost use Rattle.std.specs.Prelude.{nat_eq};
ghost use Rattle.program_runs.specs.Programs.{calling_of};
ghost use Rattle.goi_tasks.specs.Backs.{back};
ghost use Rattle.goi_c.specs.Calls.{CallsTell, HasRoom, IsAsked, OwnsTask, tell_task};
ghost use Rattle.goi_c.specs.Giving.{OfTold};

use goi_tasks::{
    Answer, BAD_CALL, Stop, ValueAndMoves, answer_of, give_nothing, give_stop, law_tasks_settled,
    no_answer, status_of, tell_text,
};
use pcf_values::limits::BUDGET;
use program_runs::{Alone, calling_of};
use std::alloc::Global;

/// Runs the program of a text within a budget of moves, and tells in numbers what it came to; or gives the line of the first fault.
///
/// The flags are 0, or 1 for call by value.
#[unsafe(no_mangle)]
pub extern "C" fn goi_tell(
    alloc: Global,
    text: &[u8],
    budget: u32,
    flags: u32,
    answer: &mut Answer,
    out: &mut [u8],
    needed: &mut usize,
) -> u32
    ensures calls { CallsTell text.now budget flags answer.new (back result needed.new out.old out.new) }
    ensures own { IsAsked 2 budget flags →
        OwnsTask (tell_task (calling_of (nat_eq flags 1)) budget) text.now (back result needed.new out.old out.new) }

    // A buffer for a line has room for the line of a fault.
    ensures room { HasRoom (back result needed.new out.old out.new) }
{
    law_tasks_settled();
    if budget < 1 || BUDGET < budget || 2 <= flags {
        *answer = no_answer();
        return give_nothing(needed, BAD_CALL);
    }
    let told = tell_text(alloc, text, budget, calling_of(flags == 1), &Alone);
    give_told(alloc, told, answer, out, needed)
}

/// Gives back what a run came to, or the line of a fault.
fn give_told(
    alloc: Global,
    told: Result<ValueAndMoves, Stop>,
    answer: &mut Answer,
    out: &mut [u8],
    needed: &mut usize,
) -> u32
    ensures { OfTold told answer.new (back result needed.new out.old out.new) }
{
    match told {
        Ok(told) => {
            *answer = answer_of(told.answer, told.moves);
            give_nothing(needed, status_of(told.answer).into())
        }
        Err(stop) => {
            *answer = no_answer();
            give_stop(alloc, stop, out, needed)
        }
    }
}
