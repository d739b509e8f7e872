//! How many nodes a term has, as far as a limit.

ghost use Rattle.std.specs.Prelude.{◌≡◌, ◌+◌, ◌<◌, nat_le, MatchOption, IfOk, if◌then◌else◌, None};
ghost use Rattle.std.specs.Option.{option_map};
ghost use Rattle.pcf_values.specs.NamedSize.{named_size};
ghost use Rattle.pcf_values.specs.Views.{named_of};
ghost use Rattle.step_text.specs.Courses.{next_term};

use pcf_values::{Named, Raw};
use std::alloc::{AllocError, Global};
use term_steps::step;

/// The room that is left beside a term's nodes, and none where they are more than there is room for.
#[cycle(sizes)]
fn room_beside(term: &Named, room: u64) -> Option<u64>
    ensures { MatchOption result (room < named_size (named_of term.now)) (λ left. left + named_size (named_of term.now) ≡ room) }
{
    if room == 0 {
        return None;
    }
    match &term.raw {
        Raw::Number(_) | Raw::Name(_) => Some(room - 1),
        Raw::Succ(a) | Raw::Pred(a) | Raw::Proj(_, a) | Raw::Fun(_, _, a) | Raw::Fix(_, _, a) => {
            room_beside(a, room - 1)
        }
        Raw::Binary(_, a, b) | Raw::App(a, b) | Raw::Pair(a, b) => room_beside_both(a, b, room - 1),
        Raw::Ifz(c, p, q) => room_beside(q, room_beside_both(c, p, room - 1)?),
    }
}

/// The room that is left beside the nodes of two terms.
#[cycle(sizes)]
fn room_beside_both(a: &Named, b: &Named, room: u64) -> Option<u64>
    ensures { MatchOption result (room < named_size (named_of a.now) + named_size (named_of b.now))
        (λ left. left + (named_size (named_of a.now) + named_size (named_of b.now)) ≡ room) }
{
    room_beside(b, room_beside(a, room)?)
}

/// There is room for the term's nodes.
pub(crate) fn is_within(term: &Named, room: u64) -> bool
    ensures { result ≡ nat_le (named_size (named_of term.now)) room }
{
    room_beside(term, room).is_some()
}

/// The term after one step, where there is room for the term.
pub(crate) fn next_term(alloc: Global, term: &Named, room: u64) -> Result<Option<Named>, AllocError>
    ensures { IfOk result (λ o. option_map named_of o ≡ next_term room (named_of term.now)) }
{
    if is_within(term, room) {
        step(alloc, term)
    } else {
        Ok(None)
    }
}
