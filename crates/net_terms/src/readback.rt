//! The term that a net was built of.

ghost use Rattle.std.specs.Prelude.{◌≡◌, ◌↔◌, ◌≤◌, ◌<◌, ◌^◌, Some, replicate, IfOk, IsTrue, IsFalse, []};
ghost use Rattle.std.specs.Option.{option_map};
ghost use Rattle.pcf_values.specs.Terms.{nat};
ghost use Rattle.pcf_values.specs.Typing.{HasType};
ghost use Rattle.pcf_values.specs.Views.{term_of};
ghost use Rattle.net_build.specs.NetOf.{net_of};
ghost use Rattle.net_terms.specs.Limits.{most_term_height};
ghost use Rattle.net_marks.specs.Passing.{mark};
ghost use Rattle.net_terms.specs.TermOf.{candidate};
ghost use Rattle.net_terms.specs.Answered.{TermOrNone};

use crate::height::height_of;
use crate::infer::is_program;
use crate::rebuild::read;
use crate::uses::has_uses;
use net_build::{Net, Node, build, law_net_size};
use net_marks::{Mark, Walk, next};
use pcf_values::{Term, Ty, Typed};
use std::alloc::{AllocError, Global};

/// The closed term of type `nat` of which the net is built, where it is no higher than the bound: there is at most one. `None` where
/// there is none. Where the net has n nodes, the term that is read from it is h high, and n * (2 * h + 4) is 2^32 or more, it may count
/// as too large for memory. On a sound net the time is that of the net's size, its types included: before anything is made of the types
/// of the term that is read, it is seen that they are those of the net.
///
/// # Errors
///
/// `AllocError` where there is no memory for the term, its types or its net, and in the case named above.
pub fn term_within(alloc: Global, net: &Net, height: u32) -> Result<Option<Typed>, AllocError>
    requires { height ≤ most_term_height }
    ensures { IfOk result (TermOrNone height net.now) }
{
    match read_root(alloc, net, height)? {
        Some(term) => program_within(alloc, net, height, term),
        None => Ok(None),
    }
}

/// The term with its type, if it is a program and the net is its.
fn program_within(
    alloc: Global,
    net: &Net,
    height: u32,
    term: Term,
) -> Result<Option<Typed>, AllocError>
    requires bound { height ≤ most_term_height }
    requires only { candidate height net.now ≡ Some (term_of term) }
    ensures { IfOk result (TermOrNone height net.now) }
{
    if is_programs_net(alloc, net, &term)? {
        checked(alloc, net, height, Typed::of(term, Ty::Nat))
    } else {
        Ok(None)
    }
}

/// Whether a term uses variables as the net does, and is closed and of type `nat`: where it doesn't or isn't, the net isn't that of
/// such a term.
fn is_programs_net(alloc: Global, net: &Net, term: &Term) -> Result<bool, AllocError>
    ensures typed { IfOk result (λ b. IsTrue b → HasType [] (term_of term.now) nat) }
    ensures other { IfOk result (λ b. IsFalse b → HasType [] (term_of term.now) nat → net_of (term_of term.now) ≡ net.now → ⊥) }
{
    if has_uses(alloc, net, term)? {
        is_program(alloc, term)
    } else {
        Ok(false)
    }
}

/// The term, if the net is its.
fn checked(
    alloc: Global,
    net: &Net,
    height: u32,
    program: Typed,
) -> Result<Option<Typed>, AllocError>
    requires bound { height ≤ most_term_height }
    requires ground { program.1 ≡ nat }
    requires only { candidate height net.now ≡ Some program.0 }
    ensures { IfOk result (TermOrNone height net.now) }
{
    let same = is_net_of(alloc, net, height, &program)?;
    Ok(same.then_some(program))
}

/// Whether the net is that of the term that is read from it.
fn is_net_of(alloc: Global, net: &Net, height: u32, program: &Typed) -> Result<bool, AllocError>
    requires bound { height ≤ most_term_height }
    requires ground { program.now.1 ≡ nat }
    requires only { candidate height net.now ≡ Some program.now.0 }
    ensures { IfOk result (λ b. IsTrue b ↔ (net_of program.now.0 ≡ net.now)) }
{
    let own_height = height_of(program.term());
    if net.node_count() as u64 * (2 * own_height as u64 + 4) >= 4_294_967_296 {
        return Err(AllocError);
    }
    law_net_size();
    let built = build(alloc, program)?;
    Ok(built.same(net))
}

/// The one term of at most this height that the net can be the net of.
fn read_root(alloc: Global, net: &Net, height: u32) -> Result<Option<Term>, AllocError>
    requires { height < 2 ^ 32 }
    ensures { IfOk result (λ o. option_map term_of o ≡ candidate height net.now) }
{
    let marks = unmarked(alloc, net.wire_count() as usize)?;
    let mut walk = Walk {
        left: net.node_count(),
        marks,
    };
    match next(net, &mut walk) {
        Some(Node::Root { wire }) => read(alloc, net, &mut walk, height, 0, 0, 0, wire),
        _ => Ok(None),
    }
}

/// Marks for so many wires, none of which was bound yet.
fn unmarked(alloc: Global, count: usize) -> Result<Vec<Mark>, AllocError>
    ensures { IfOk result (λ v. v.items ≡ replicate count (mark 0 0)) }
{
    vec![in alloc; Mark { level: 0, place: 0 }; count]
}
