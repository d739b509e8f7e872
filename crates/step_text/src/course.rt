//! A reduction, step after step, within its limits.

ghost use Rattle.std.specs.Prelude.{◌≡◌, ◌++◌, true, false, Some, None, IfOk};
ghost use Rattle.pcf_values.specs.Views.{named_of};
ghost use Rattle.step_text.specs.Lines.{line_in};
ghost use Rattle.step_text.specs.Courses.{next_term, goes_on};

use crate::line::push_asked;
use crate::size::next_term;
use pcf_values::Named;
use std::alloc::{AllocError, Global};

/// Makes step k of a term, where there is one and room for the term, and appends its line where it is asked for. Says whether it made it.
fn advance(
    alloc: Global,
    lines: &mut Vec<u8>,
    now: &mut Named,
    from: u64,
    most: u64,
    room: u64,
    k: u64,
) -> Result<bool, AllocError>
    ensures went { IfOk result (λ went. went ≡ true → (next_term room (named_of now.old) ≡ Some (named_of now.new))
        × (lines.new.items ≡ lines.old.items ++ line_in from most k (named_of now.old))) }
    ensures stayed { IfOk result (λ went. went ≡ false → (next_term room (named_of now.old) ≡ None)
        × (named_of now.new ≡ named_of now.old) × (lines.new.items ≡ lines.old.items)) }
{
    match next_term(alloc, now, room)? {
        None => Ok(false),
        Some(next) => {
            let told = push_asked(alloc, lines, from, most, k, now);
            *now = next;
            told?;
            Ok(true)
        }
    }
}

/// Makes the steps of a term, as far as its budget and its room allow, and appends the lines of those that are asked for. Answers how
/// many were made.
pub(crate) fn follow(
    alloc: Global,
    lines: &mut Vec<u8>,
    now: &mut Named,
    from: u64,
    most: u64,
    room: u64,
    budget: u64,
) -> Result<u64, AllocError>
    ensures { IfOk result (λ k. goes_on from most room budget 0 lines.old.items (named_of now.old)
        ≡ record { steps = k; last = named_of now.new; lines = lines.new.items }) }
{
    for k in 0..budget {
        if !advance(alloc, lines, now, from, most, room, k)? {
            return Ok(k);
        }
    }
    Ok(budget)
}
