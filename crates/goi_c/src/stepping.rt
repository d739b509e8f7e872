//! Reductions, as texts.

ghost use Rattle.goi_tasks.specs.Backs.{back};
ghost use Rattle.goi_c.specs.Calls.{CallsSteps, IsAskedSteps, OwnsTask, part, steps_task};

use goi_jobs::{TOLD_STEPS, Task, Window};
use goi_tasks::{BAD_CALL, give_nothing, give_result, law_tasks_settled, report_text};
use pcf_values::limits::{BUDGET, SCHEDULE_MOVES};
use program_runs::Alone;
use std::alloc::Global;

/// Rewrites the program of a text by name, at most so many steps, and tells its value, the number of steps, and the terms of a part of
/// them: from this step on, counted from 0, at most so many.
#[unsafe(no_mangle)]
pub extern "C" fn goi_steps(
    alloc: Global,
    text: &[u8],
    budget: u32,
    from: u32,
    most: u32,
    out: &mut [u8],
    needed: &mut usize,
) -> u32
    ensures calls { CallsSteps text.now budget (part from most) (back result needed.new out.old out.new) }
    ensures own { IsAskedSteps budget (part from most) →
        OwnsTask (steps_task budget (part from most)) text.now (back result needed.new out.old out.new) }
{
    law_tasks_settled();
    if budget < 1 || BUDGET < budget {
        return give_nothing(needed, BAD_CALL);
    }
    if SCHEDULE_MOVES < from || most < 1 || TOLD_STEPS < most {
        return give_nothing(needed, BAD_CALL);
    }
    let window = Window { from, most };
    let reduced = report_text(alloc, text, Task::Steps { budget, window }, &Alone);
    give_result(alloc, reduced, out, needed)
}
