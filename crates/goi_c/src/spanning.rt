//! Runs in rounds, as texts.

ghost use Rattle.goi_tasks.specs.Asked.{span_task};
ghost use Rattle.goi_tasks.specs.Backs.{back};
ghost use Rattle.goi_c.specs.Calls.{CallsSpan, IsAsked, OwnsTask};

use goi_tasks::{BAD_CALL, give_nothing, give_result, law_tasks_settled, report_text, span_task};
use pcf_values::limits::BUDGET;
use program_runs::Alone;
use std::alloc::Global;

/// Runs the program of a text in rounds within a budget of moves, and tells the value, the moves, the rounds and their greatest width.
///
/// The flags are a sum of 1 for call by value, 2 for the schedule behind the lines, and 4 for a line for each round.
#[unsafe(no_mangle)]
pub extern "C" fn goi_span(
    alloc: Global,
    text: &[u8],
    budget: u32,
    flags: u32,
    out: &mut [u8],
    needed: &mut usize,
) -> u32
    ensures calls { CallsSpan text.now budget flags (back result needed.new out.old out.new) }
    ensures own { IsAsked 8 budget flags → OwnsTask (span_task budget flags) text.now (back result needed.new out.old out.new) }
{
    law_tasks_settled();
    if budget < 1 || BUDGET < budget || 8 <= flags {
        return give_nothing(needed, BAD_CALL);
    }
    let spanned = report_text(alloc, text, span_task(budget, flags), &Alone);
    give_result(alloc, spanned, out, needed)
}
