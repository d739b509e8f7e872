//! Whether a net uses variables as a term does.

ghost use Rattle.std.specs.Prelude.{◌≡◌, ◌∷◌, ◌++◌, [], Option, IfOk, OnOk, IsFalse, IsTrue, ◌↔◌, MatchOption, slice_get};
ghost use Rattle.pcf_values.specs.Views.{term_of, ty_of};
ghost use Rattle.net_build.specs.NetOf.{type_or_nat};
ghost use Rattle.net_terms.specs.TermOf.{type_at};
ghost use Rattle.net_terms.specs.Typable.{context_of};
ghost use Rattle.net_terms.specs.Uses.{ComeFirst, used_types, using_behind, using_types};

use net_build::{Net, Node};
use pcf_values::{Term, Ty};
use std::alloc::{AllocError, Global};

/// Whether the nodes that use variables have the types of the variables that the term uses: where they haven't, the net is not that
/// of the term. It takes time in the order of the net's size, its types included.
pub(crate) fn has_uses(alloc: Global, net: &Net, term: &Term) -> Result<bool, AllocError>
    ensures { IfOk result (λ b. IsFalse b → using_types net.now.wires net.now.nodes ≡ used_types [] (term_of term.now) → ⊥) }
{
    let mut context = Vec::new(alloc);
    let mut next = 0;
    let fits = take(alloc, net, &mut context, &mut next, term)?;
    Ok(fits)
}

/// Goes past the uses of a term under these binders, the nearest one last; `false` where they don't come next.
#[cycle(take)]
fn take(
    alloc: Global,
    net: &Net,
    context: &mut Vec<Ty>,
    next: &mut usize,
    term: &Term,
) -> Result<bool, AllocError>
    ensures context { OnOk result (context.new.items ≡ context.old.items) }
    ensures uses { IfOk result
        (λ b. ComeFirst b (using_behind net.now next.old) (used_types (context_of context.old.items) (term_of term.now))
        (using_behind net.now next.new)) }
{
    match term {
        Term::Number(_) => Ok(true),
        Term::Var(i) => Ok(take_variable(net, context, next, *i)),
        Term::Succ(a) | Term::Pred(a) | Term::Proj(_, a) => take(alloc, net, context, next, a),
        Term::Binary(_, a, b) | Term::App(a, b) | Term::Pair(a, b) => {
            take_two(alloc, net, context, next, a, b)
        }
        Term::Ifz(c, p, q) => take_three(alloc, net, context, next, c, p, q),
        Term::Fun(ty, body) | Term::Fix(ty, body) => {
            take_body(alloc, net, context, next, ty, body)
        }
    }
}

/// Whether the uses that come next are those of the first term and then those of the second; goes on behind them.
#[cycle(take)]
#[tactic(auto, using(crate::proofs::Taking::first_then))]
fn take_two(
    alloc: Global,
    net: &Net,
    context: &mut Vec<Ty>,
    next: &mut usize,
    a: &Term,
    b: &Term,
) -> Result<bool, AllocError>
    ensures context { OnOk result (context.new.items ≡ context.old.items) }
    ensures uses { IfOk result
        (λ r. ComeFirst r (using_behind net.now next.old)
        (used_types (context_of context.old.items) (term_of a.now) ++ used_types (context_of context.old.items) (term_of b.now))
        (using_behind net.now next.new)) }
{
    if take(alloc, net, context, next, a)? {
        Ok(take(alloc, net, context, next, b)?)
    } else {
        Ok(false)
    }
}

/// The same of three terms, one after the other.
#[cycle(take)]
#[tactic(auto, using(crate::proofs::Taking::first_then))]
fn take_three(
    alloc: Global,
    net: &Net,
    context: &mut Vec<Ty>,
    next: &mut usize,
    a: &Term,
    b: &Term,
    c: &Term,
) -> Result<bool, AllocError>
    ensures context { OnOk result (context.new.items ≡ context.old.items) }
    ensures uses { IfOk result
        (λ r. ComeFirst r (using_behind net.now next.old)
        (used_types (context_of context.old.items) (term_of a.now) ++
        (used_types (context_of context.old.items) (term_of b.now) ++ used_types (context_of context.old.items) (term_of c.now)))
        (using_behind net.now next.new)) }
{
    if take(alloc, net, context, next, a)? {
        Ok(take_two(alloc, net, context, next, b, c)?)
    } else {
        Ok(false)
    }
}

/// The same of a body in the context with its binder's type.
#[cycle(take)]
fn take_body(
    alloc: Global,
    net: &Net,
    context: &mut Vec<Ty>,
    next: &mut usize,
    ty: &Ty,
    body: &Term,
) -> Result<bool, AllocError>
    ensures context { OnOk result (context.new.items ≡ context.old.items) }
    ensures uses { IfOk result
        (λ r. ComeFirst r (using_behind net.now next.old) (used_types (ty_of ty.now ∷ context_of context.old.items) (term_of body.now))
        (using_behind net.now next.new)) }
{
    context.push(ty.copy(alloc)?)?;
    let fits = take(alloc, net, context, next, body)?;
    context.pop();
    Ok(fits)
}

/// Goes past the next use, where it is one of variable `i`.
fn take_variable(net: &Net, context: &[Ty], next: &mut usize, i: u32) -> bool
    ensures { ComeFirst result (using_behind net.now next.old) (type_or_nat (slice_get (context_of context.now) i) ∷ [])
        (using_behind net.now next.new) }
{
    match next_use(net, next) {
        Some(wire) => match variable(context, i) {
            Some(ty) => is_on(net, wire, ty),
            None => is_on(net, wire, &Ty::Nat),
        },
        None => false,
    }
}

/// The value wire of the next node that uses a variable. The walk goes on behind it.
fn next_use(net: &Net, next: &mut usize) -> Option<u32>
    ensures { MatchOption result (using_behind net.now next.old ≡ [])
        (λ w. using_behind net.now next.old ≡ type_at net.now.wires w ∷ using_behind net.now next.new) }
{
    let nodes = net.nodes();
    while *next < nodes.len() {
        let node = nodes[*next];
        *next += 1;
        if let Node::Der { wire, .. } = node {
            return Some(wire);
        }
    }
    None
}

/// The type of variable `i`, where there is one.
fn variable(context: &[Ty], i: u32) -> Option<&Ty>
    ensures { MatchOption result (slice_get (context_of context.now) i ≡ Option.None)
        (λ t. slice_get (context_of context.now) i ≡ Option.Some (ty_of t.now)) }
{
    let count = context.len();
    let i = i as usize;
    if i < count {
        Some(&context[count - 1 - i])
    } else {
        None
    }
}

/// Whether a wire has this type; a number past the list counts as a wire of `nat`.
fn is_on(net: &Net, wire: u32, ty: &Ty) -> bool
    ensures { IsTrue result ↔ (type_at net.now.wires wire ≡ ty_of ty.now) }
{
    match net.wire(wire) {
        Some(wire) => wire.ty.same(ty),
        None => Ty::Nat.same(ty),
    }
}
