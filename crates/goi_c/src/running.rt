//! Runs, as texts.

ghost use Rattle.std.specs.Prelude.{◌≡◌, ◌<◌, false};
ghost use Rattle.goi_jobs.specs.Ranges.{IsBudget};
ghost use Rattle.goi_tasks.specs.Asked.{listed_task, run_task, trace_task};
ghost use Rattle.goi_tasks.specs.Backs.{back};
ghost use Rattle.goi_c.specs.Calls.{CallsListed, CallsRun, CallsTrace, HasRoom, IsAsked, IsAskedTrace, OwnsTask, part};

use goi_jobs::{TRACED_MOVES, Window};
use goi_tasks::{
    BAD_CALL, give_nothing, give_result, law_tasks_settled, net_task, report_text, run_task,
    trace_task,
};
use pcf_values::limits::{BUDGET, SCHEDULE_MOVES};
use program_runs::Alone;
use std::alloc::Global;

/// Runs the program of a text within a budget of moves: `value V` and `moves M`, or `no value` and `moves M`.
///
/// The flags are a sum of 1 for call by value and 2 for the schedule behind the two lines.
#[unsafe(no_mangle)]
pub extern "C" fn goi_run(
    alloc: Global,
    text: &[u8],
    budget: u32,
    flags: u32,
    out: &mut [u8],
    needed: &mut usize,
) -> u32
    ensures calls { CallsRun text.now budget flags (back result needed.new out.old out.new) }
    ensures own { IsAsked 4 budget flags → OwnsTask (run_task budget flags) text.now (back result needed.new out.old out.new) }

    // A buffer for a line has room for all but a schedule.
    ensures room { flags < 2 → HasRoom (back result needed.new out.old out.new) }
{
    law_tasks_settled();
    if budget < 1 || BUDGET < budget || 4 <= flags {
        return give_nothing(needed, BAD_CALL);
    }
    let ran = report_text(alloc, text, run_task(budget, flags), &Alone);
    give_result(alloc, ran, out, needed)
}

/// Runs the program whose net a text lists, in the same way, with the schedule where asked. A net has no call by value.
#[unsafe(no_mangle)]
pub extern "C" fn goi_run_net(
    alloc: Global,
    text: &[u8],
    budget: u32,
    schedule: bool,
    out: &mut [u8],
    needed: &mut usize,
) -> u32
    ensures calls { CallsListed text.now budget schedule (back result needed.new out.old out.new) }
    ensures own { IsBudget budget → OwnsTask (listed_task budget schedule) text.now (back result needed.new out.old out.new) }

    // A buffer for a line has room for all but a schedule.
    ensures room { schedule ≡ false → HasRoom (back result needed.new out.old out.new) }
{
    law_tasks_settled();
    if budget < 1 || BUDGET < budget {
        return give_nothing(needed, BAD_CALL);
    }
    let ran = report_text(alloc, text, net_task(budget, schedule), &Alone);
    give_result(alloc, ran, out, needed)
}

/// Runs the program of a text within a budget of moves, and tells the two lines of the run, and behind them a part of its trace: from this
/// move on, counted from 0, at most so many.
///
/// The flags are 0, or 1 for call by value.
#[unsafe(no_mangle)]
pub extern "C" fn goi_trace(
    alloc: Global,
    text: &[u8],
    budget: u32,
    flags: u32,
    from: u32,
    most: u32,
    out: &mut [u8],
    needed: &mut usize,
) -> u32
    ensures calls { CallsTrace text.now budget flags (part from most) (back result needed.new out.old out.new) }
    ensures own { IsAskedTrace budget flags (part from most) →
        OwnsTask (trace_task budget flags (part from most)) text.now (back result needed.new out.old out.new) }
{
    law_tasks_settled();
    if budget < 1 || BUDGET < budget || 2 <= flags {
        return give_nothing(needed, BAD_CALL);
    }
    if SCHEDULE_MOVES < from || most < 1 || TRACED_MOVES < most {
        return give_nothing(needed, BAD_CALL);
    }
    let task = trace_task(budget, flags, Window { from, most });
    let traced = report_text(alloc, text, task, &Alone);
    give_result(alloc, traced, out, needed)
}
