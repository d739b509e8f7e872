//! A term read from the nodes of a net, the last node first.
//!
//! The recursion goes over the term that comes out, and never deeper than the height that it is given. Each form has a function of
//! its own, so that no frame is large.

ghost use Rattle.std.specs.Prelude.{◌≡◌, ◌≤◌, ◌<◌, ◌+◌, ◌^◌, ◌∷◌, suc, length, IfOk};
ghost use Rattle.pcf_values.specs.Terms.{ifz, lam, fix};
ghost use Rattle.pcf_values.specs.Views.{term_of, ty_of};
ghost use Rattle.net_build.specs.NetOf.{domain};
ghost use Rattle.net_marks.specs.Reads.{Gives};
ghost use Rattle.net_marks.specs.Walks.{left};
ghost use Rattle.net_terms.specs.TermOf.{met, one, reading, set_marked, start, three, two, type_at};
ghost use Rattle.net_terms.specs.Forms.{one_term, two_term};

use crate::forms::{One, Two};
use net_build::{Net, Node};
use net_marks::{Mark, Walk, next, pass, value_of, variable_of};
use pcf_values::{Term, Ty};
use std::alloc::{AllocError, Global};

/// What the operands of a node share: how high each may be, how many binders are around it, and in which box it is read.
#[derive(Clone, Copy)]
pub(crate) struct Scope {
    pub(crate) height: u32,
    pub(crate) binders: u32,
    pub(crate) place: u64,
}

/// The term of at most this height that comes next, under so many binders; `None` where the definition reads none.
#[cycle(read)]
pub(crate) fn read(
    alloc: Global,
    net: &Net,
    walk: &mut Walk,
    height: u32,
    binders: u32,
    around: u64,
    place: u64,
    want: u32,
) -> Result<Option<Term>, AllocError>
    requires nodes { walk.old.left ≤ length net.now.nodes }
    requires levels { binders + height < 2 ^ 32 }
    ensures nodes { walk.new.left ≤ length net.now.nodes }
    ensures term { IfOk result
        (λ o. Gives term_of o (reading net.now.wires height binders around place want (left net.now walk.old) walk.old.marks.items)
        (left net.now walk.new) walk.new.marks.items) }
{
    if height == 0 {
        return Ok(None);
    }
    let (inner, next_wire) = pass(net, walk, around, place, want);
    match next(net, walk) {
        Some(node) => begin(
            alloc,
            net,
            walk,
            node,
            height - 1,
            binders,
            inner,
            next_wire,
        ),
        None => Ok(None),
    }
}

/// The operand that comes next, in a box of its own on the heap; it is read as one that begins in the net's box `inner`.
#[cycle(read)]
fn read_operand(
    alloc: Global,
    net: &Net,
    walk: &mut Walk,
    scope: Scope,
    inner: u64,
    want: u32,
) -> Result<Option<Box<Term>>, AllocError>
    requires nodes { walk.old.left ≤ length net.now.nodes }
    requires levels { scope.binders + scope.height < 2 ^ 32 }
    ensures nodes { walk.new.left ≤ length net.now.nodes }
    ensures term { IfOk result
        (λ o. Gives (λ t. term_of t.value) o
        (reading net.now.wires scope.height scope.binders scope.place inner want (left net.now walk.old) walk.old.marks.items)
        (left net.now walk.new) walk.new.marks.items) }
{
    match read(
        alloc,
        net,
        walk,
        scope.height,
        scope.binders,
        scope.place,
        inner,
        want,
    )? {
        Some(term) => Ok(Some(Box::new(alloc, term)?)),
        None => Ok(None),
    }
}

/// The term whose own node this is, with operands of at most this height, where its value wire is the wanted one.
#[cycle(read)]
fn begin(
    alloc: Global,
    net: &Net,
    walk: &mut Walk,
    node: Node,
    height: u32,
    binders: u32,
    place: u64,
    want: u32,
) -> Result<Option<Term>, AllocError>
    requires nodes { walk.old.left ≤ length net.now.nodes }
    requires levels { binders + suc height < 2 ^ 32 }
    ensures nodes { walk.new.left ≤ length net.now.nodes }
    ensures term { IfOk result
        (λ o. Gives term_of o
        (met want (node ∷ left net.now walk.old)
        (start net.now.wires (reading net.now.wires height) binders place (node ∷ left net.now walk.old) walk.old.marks.items))
        (left net.now walk.new) walk.new.marks.items) }
{
    if value_of(node) == want {
        let scope = Scope {
            height,
            binders,
            place,
        };
        start(alloc, net, walk, node, scope)
    } else {
        Ok(None)
    }
}

/// The term whose own node this is, with operands that are read so.
#[cycle(read)]
fn start(
    alloc: Global,
    net: &Net,
    walk: &mut Walk,
    node: Node,
    scope: Scope,
) -> Result<Option<Term>, AllocError>
    requires nodes { walk.old.left ≤ length net.now.nodes }
    requires levels { scope.binders + suc scope.height < 2 ^ 32 }
    ensures nodes { walk.new.left ≤ length net.now.nodes }
    ensures term { IfOk result
        (λ o. Gives term_of o
        (start net.now.wires (reading net.now.wires scope.height) scope.binders scope.place (node ∷ left net.now walk.old)
        walk.old.marks.items)
        (left net.now walk.new) walk.new.marks.items) }
{
    match node {
        Node::Const { value, .. } => Ok(Some(Term::Number(value))),
        Node::Der { variable, .. } => Ok(variable_of(
            walk.mark(variable),
            scope.binders,
            scope.place,
        )),
        Node::Succ { operand, .. } => read_one(alloc, net, walk, One::Succ, operand, scope),
        Node::Pred { operand, .. } => read_one(alloc, net, walk, One::Pred, operand, scope),
        Node::Proj { side, operand, .. } => {
            read_one(alloc, net, walk, One::Proj(side), operand, scope)
        }
        Node::Binary {
            operator,
            left,
            right,
            ..
        } => read_two(alloc, net, walk, Two::Binary(operator), left, right, scope),
        Node::App {
            function,
            argument,
            ..
        } => read_two(alloc, net, walk, Two::App, function, argument, scope),
        Node::Pair { left, right, .. } => read_two(alloc, net, walk, Two::Pair, left, right, scope),
        Node::Ifz {
            condition,
            then,
            otherwise,
            ..
        } => read_ifz(alloc, net, walk, condition, then, otherwise, scope),
        Node::Lam {
            body,
            variable,
            wire,
        } => read_fun(alloc, net, walk, body, variable, wire, scope),
        Node::FixBox {
            body,
            variable,
            wire,
        } => read_fix(alloc, net, walk, body, variable, wire, scope),
        _ => Ok(None),
    }
}

/// Reads the operand of a form of one operand, and puts it under the form.
#[cycle(read)]
fn read_one(
    alloc: Global,
    net: &Net,
    walk: &mut Walk,
    form: One,
    operand: u32,
    scope: Scope,
) -> Result<Option<Term>, AllocError>
    requires nodes { walk.old.left ≤ length net.now.nodes }
    requires levels { scope.binders + suc scope.height < 2 ^ 32 }
    ensures nodes { walk.new.left ≤ length net.now.nodes }
    ensures term { IfOk result
        (λ o. Gives term_of o
        (one (one_term form) (reading net.now.wires scope.height scope.binders scope.place scope.place operand (left net.now walk.old)
        walk.old.marks.items))
        (left net.now walk.new) walk.new.marks.items) }
{
    match read_operand(alloc, net, walk, scope, scope.place, operand)? {
        Some(a) => Ok(Some(form.term(a))),
        None => Ok(None),
    }
}

/// Reads both operands of a form of two, the second one first, since the last node comes first.
#[cycle(read)]
fn read_two(
    alloc: Global,
    net: &Net,
    walk: &mut Walk,
    form: Two,
    first: u32,
    second: u32,
    scope: Scope,
) -> Result<Option<Term>, AllocError>
    requires nodes { walk.old.left ≤ length net.now.nodes }
    requires levels { scope.binders + suc scope.height < 2 ^ 32 }
    ensures nodes { walk.new.left ≤ length net.now.nodes }
    ensures term { IfOk result
        (λ o. Gives term_of o
        (two (two_term form) (reading net.now.wires scope.height scope.binders scope.place scope.place first)
        (reading net.now.wires scope.height scope.binders scope.place scope.place second (left net.now walk.old) walk.old.marks.items))
        (left net.now walk.new)
        walk.new.marks.items) }
{
    let Some(b) = read_operand(alloc, net, walk, scope, scope.place, second)? else {
        return Ok(None);
    };
    match read_operand(alloc, net, walk, scope, scope.place, first)? {
        Some(a) => Ok(Some(form.term(a, b))),
        None => Ok(None),
    }
}

/// Reads the three operands of an `ifz`, the last one first.
#[cycle(read)]
fn read_ifz(
    alloc: Global,
    net: &Net,
    walk: &mut Walk,
    test: u32,
    then: u32,
    otherwise: u32,
    scope: Scope,
) -> Result<Option<Term>, AllocError>
    requires nodes { walk.old.left ≤ length net.now.nodes }
    requires levels { scope.binders + suc scope.height < 2 ^ 32 }
    ensures nodes { walk.new.left ≤ length net.now.nodes }
    ensures term { IfOk result
        (λ o. Gives term_of o
        (three ifz (reading net.now.wires scope.height scope.binders scope.place scope.place test)
        (reading net.now.wires scope.height scope.binders scope.place scope.place then)
        (reading net.now.wires scope.height scope.binders scope.place scope.place otherwise (left net.now walk.old) walk.old.marks.items))
        (left net.now walk.new)
        walk.new.marks.items) }
{
    let Some(third) = read_operand(alloc, net, walk, scope, scope.place, otherwise)? else {
        return Ok(None);
    };
    let Some(second) = read_operand(alloc, net, walk, scope, scope.place, then)? else {
        return Ok(None);
    };
    match read_operand(alloc, net, walk, scope, scope.place, test)? {
        Some(first) => Ok(Some(Term::Ifz(first, second, third))),
        None => Ok(None),
    }
}

/// Reads the body of a function, under a binder more and with its variable's wire marked.
#[cycle(read)]
fn read_fun(
    alloc: Global,
    net: &Net,
    walk: &mut Walk,
    body: u32,
    variable: u32,
    wire: u32,
    scope: Scope,
) -> Result<Option<Term>, AllocError>
    requires nodes { walk.old.left ≤ length net.now.nodes }
    requires levels { scope.binders + suc scope.height < 2 ^ 32 }
    ensures nodes { walk.new.left ≤ length net.now.nodes }
    ensures term { IfOk result
        (λ o. Gives term_of o
        (one (lam (domain (type_at net.now.wires wire)))
        (reading net.now.wires scope.height (suc scope.binders) scope.place scope.place body (left net.now walk.old)
        (set_marked walk.old.marks.items variable scope.binders scope.place))) (left net.now walk.new) walk.new.marks.items) }
{
    let ty = from_of(alloc, net, wire)?;
    match read_body(alloc, net, walk, scope, scope.place, body, variable)? {
        Some(inside) => Ok(Some(Term::Fun(ty, inside))),
        None => Ok(None),
    }
}

/// Reads the body of a fixed point, under a binder more, in the box of its own and with its variable's wire marked.
#[cycle(read)]
fn read_fix(
    alloc: Global,
    net: &Net,
    walk: &mut Walk,
    body: u32,
    variable: u32,
    wire: u32,
    scope: Scope,
) -> Result<Option<Term>, AllocError>
    requires nodes { walk.old.left ≤ length net.now.nodes }
    requires levels { scope.binders + suc scope.height < 2 ^ 32 }
    ensures nodes { walk.new.left ≤ length net.now.nodes }
    ensures term { IfOk result
        (λ o. Gives term_of o
        (one (fix (type_at net.now.wires wire))
        (reading net.now.wires scope.height (suc scope.binders) scope.place (suc wire) body (left net.now walk.old)
        (set_marked walk.old.marks.items variable scope.binders (suc wire)))) (left net.now walk.new) walk.new.marks.items) }
{
    let ty = type_of_wire(alloc, net, wire)?;
    match read_body(alloc, net, walk, scope, wire as u64 + 1, body, variable)? {
        Some(inside) => Ok(Some(Term::Fix(ty, inside))),
        None => Ok(None),
    }
}

/// The body of a binder, which is read in the net's box `inner` with the binder's wire marked.
#[cycle(read)]
fn read_body(
    alloc: Global,
    net: &Net,
    walk: &mut Walk,
    scope: Scope,
    inner: u64,
    body: u32,
    variable: u32,
) -> Result<Option<Box<Term>>, AllocError>
    requires nodes { walk.old.left ≤ length net.now.nodes }
    requires levels { scope.binders + suc scope.height < 2 ^ 32 }
    ensures nodes { walk.new.left ≤ length net.now.nodes }
    ensures term { IfOk result
        (λ o. Gives (λ t. term_of t.value) o
        (reading net.now.wires scope.height (suc scope.binders) scope.place inner body (left net.now walk.old)
        (set_marked walk.old.marks.items variable scope.binders inner)) (left net.now walk.new) walk.new.marks.items) }
{
    let mark = Mark {
        level: scope.binders,
        place: inner,
    };
    walk.set(variable, mark);
    let under = Scope {
        binders: scope.binders + 1,
        ..scope
    };
    Ok(read_operand(alloc, net, walk, under, inner, body)?)
}

/// The type of a wire; a number past the list counts as `nat`.
fn type_of_wire(alloc: Global, net: &Net, wire: u32) -> Result<Ty, AllocError>
    ensures { IfOk result (λ t. ty_of t ≡ type_at net.now.wires wire) }
{
    match net.wire(wire) {
        Some(wire) => wire.ty.copy(alloc),
        None => Ok(Ty::Nat),
    }
}

/// What a function on a wire takes; what is no function counts as one from `nat`.
fn from_of(alloc: Global, net: &Net, wire: u32) -> Result<Ty, AllocError>
    ensures { IfOk result (λ t. ty_of t ≡ domain (type_at net.now.wires wire)) }
{
    match net.wire(wire) {
        Some(wire) => from_of_type(alloc, &wire.ty),
        None => Ok(Ty::Nat),
    }
}

/// What a function of this type takes; a type that is no function's counts as one from `nat`.
fn from_of_type(alloc: Global, ty: &Ty) -> Result<Ty, AllocError>
    ensures { IfOk result (λ t. ty_of t ≡ domain (ty_of ty.now)) }
{
    match ty {
        Ty::Arrow(from, _) => from.copy(alloc),
        _ => Ok(Ty::Nat),
    }
}
