//! The net of a program, built in one pass over its term, beside `specs/NetOf.antt`.
//!
//! `place` is the definition's `part`, clause by clause: a form's operands are placed one after another, each at the end of the lists
//! so far, and then `closing` adds the form's end. The depth and the context are the definition's, and the next wire is the length of
//! the list of wires. Each form has a function of its own, so that no frame is large.

ghost use Rattle.std.specs.Prelude.{◌≡◌, ◌<◌, ◌^◌, ◌∷◌, [], length, slice_get, IfOk, OnOk};
ghost use Rattle.pcf_values.specs.Terms.{nat, num, var, app, ifz, fix, lam};
ghost use Rattle.pcf_values.specs.Views.{ty_of, term_of};
ghost use Rattle.net_build.specs.Nets.{value_wire, var_wire};
ghost use Rattle.net_build.specs.NetOf.{net_of, type_or_nat};
ghost use Rattle.net_build.specs.Building.{Builds, BuildsBody, Grows, HasRoom, body_at, context_of, double_of, one_at, part_at, unary_of};

use crate::closing::{close_app, close_double, close_fix, close_fun, close_ifz, finish};
use crate::double::Double;
use crate::parts::{Loose, Parts, Placed};
use crate::unary::Unary;
use crate::{Net, Node, Wire, WireKind};
use pcf_values::{Term, Ty, Typed};
use std::alloc::{AllocError, Global};

/// The net of a program: exactly that of the definition. Its time is that of the net's size, each wire with its type, and at each join of
/// two operands' variables, and at each box, that of the binders around: no list of free variables is longer.
///
/// # Errors
///
/// `AllocError` where there is no memory for the net.
pub fn build(alloc: Global, program: &Typed) -> Result<Net, AllocError>
    requires ground { program.now.1 ≡ nat }
    requires wires { length (net_of program.now.0).wires < 2 ^ 32 }
    requires nodes { length (net_of program.now.0).nodes < 2 ^ 32 }
    ensures { IfOk result (λ net. net ≡ net_of program.now.0) }
{
    let mut parts = Parts {
        wires: Vec::new(alloc),
        nodes: Vec::new(alloc),
        context: Vec::new(alloc),
    };
    let root = place(alloc, &mut parts, 0, program.term())?;
    parts.nodes.push(Node::Root { wire: root.out })?;
    Net::from_parts(alloc, parts.wires, parts.nodes)
}

/// Adds the wires and nodes of a term at a depth, and answers what it gives.
#[cycle(place)]
fn place(alloc: Global, parts: &mut Parts, depth: u32, term: &Term) -> Result<Placed, AllocError>
    requires { HasRoom parts.old depth (part_at parts.old depth (term_of term.now)) }
    ensures { IfOk result (Builds parts.old parts.new (part_at parts.old depth (term_of term.now))) }
{
    match term {
        Term::Number(v) => place_number(alloc, parts, depth, *v),
        Term::Var(i) => place_variable(alloc, parts, depth, *i),
        Term::Succ(a) => place_unary(alloc, parts, depth, Unary::Succ, a),
        Term::Pred(a) => place_unary(alloc, parts, depth, Unary::Pred, a),
        Term::Binary(operator, a, b) => {
            place_double(alloc, parts, depth, Double::Binary(*operator), a, b)
        }
        Term::Ifz(test, then, otherwise) => place_ifz(alloc, parts, depth, test, then, otherwise),
        Term::Fun(ty, body) => place_fun(alloc, parts, depth, ty, body),
        Term::Fix(ty, body) => place_fix(alloc, parts, depth, ty, body),
        Term::App(function, argument) => place_app(alloc, parts, depth, function, argument),
        Term::Pair(a, b) => place_double(alloc, parts, depth, Double::Pair, a, b),
        Term::Proj(side, a) => place_unary(alloc, parts, depth, Unary::Proj(*side), a),
    }
}

/// A constant on a value wire.
fn place_number(alloc: Global, parts: &mut Parts, depth: u32, v: u64) -> Result<Placed, AllocError>
    requires { HasRoom parts.old depth (part_at parts.old depth (num v)) }
    ensures { IfOk result (Builds parts.old parts.new (part_at parts.old depth (num v))) }
{
    let node = Node::Const {
        value: v,
        wire: parts.next(),
    };
    finish(parts, depth, Ty::Nat, node, Vec::new(alloc))
}

/// A use of a variable: its value wire and its variable wire, with a Der above both.
fn place_variable(
    alloc: Global,
    parts: &mut Parts,
    depth: u32,
    i: u32,
) -> Result<Placed, AllocError>
    requires { HasRoom parts.old depth (part_at parts.old depth (var i)) }
    ensures { IfOk result (Builds parts.old parts.new (part_at parts.old depth (var i))) }
{
    let ty = variable_type(alloc, &parts.context, i)?;
    let wire = parts.next();
    add_uses(alloc, parts, depth, ty)?;
    let variable = wire + 1;
    parts.nodes.push(Node::Der { wire, variable })?;
    let free = one_loose(alloc, parts.context.len(), i, variable)?;
    Ok(Placed { out: wire, free })
}

/// The value wire of a variable and its variable wire.
fn add_uses(alloc: Global, parts: &mut Parts, depth: u32, ty: Ty) -> Result<(), AllocError>
    ensures { OnOk result (Grows parts.old parts.new (value_wire depth (ty_of ty) ∷ var_wire depth (ty_of ty) ∷ []) []) }
{
    parts.wires.push(Wire {
        kind: WireKind::Value,
        depth,
        ty: ty.copy(alloc)?,
    })?;
    parts.wires.push(Wire {
        kind: WireKind::Variable,
        depth,
        ty,
    })?;
    Ok(())
}

/// The type of variable `i`. An index past the context, which no closed term has, is of type `nat`.
fn variable_type(alloc: Global, context: &Vec<Ty>, i: u32) -> Result<Ty, AllocError>
    ensures { IfOk result (λ t. ty_of t ≡ type_or_nat (slice_get (context_of context.now.items) i)) }
{
    let count = context.len();
    let i = i as usize;
    if i < count {
        context[count - 1 - i].copy(alloc)
    } else {
        Ok(Ty::Nat)
    }
}

/// The one loose wire of variable `i`, where there are so many binders.
fn one_loose(alloc: Global, binders: usize, i: u32, wire: u32) -> Result<Vec<Loose>, AllocError>
    ensures { IfOk result (λ v. v.items ≡ one_at binders i wire) }
{
    let mut free = Vec::new(alloc);
    let i = i as usize;
    if i < binders {
        free.push(Loose {
            binder: binders - 1 - i,
            wire,
        })?;
    }
    Ok(free)
}

/// The operand, and its end.
#[cycle(place)]
fn place_unary(
    alloc: Global,
    parts: &mut Parts,
    depth: u32,
    form: Unary,
    operand: &Term,
) -> Result<Placed, AllocError>
    requires { HasRoom parts.old depth (unary_of form parts.old depth (term_of operand.now)) }
    ensures { IfOk result (Builds parts.old parts.new (unary_of form parts.old depth (term_of operand.now))) }
{
    let operand = place(alloc, parts, depth, operand)?;
    let ty = form.ty(alloc, parts.ty(operand.out))?;
    let node = form.node(operand.out, parts.next());
    finish(parts, depth, ty, node, operand.free)
}

/// Both operands, and their end.
#[cycle(place)]
fn place_double(
    alloc: Global,
    parts: &mut Parts,
    depth: u32,
    form: Double,
    left: &Term,
    right: &Term,
) -> Result<Placed, AllocError>
    requires { HasRoom parts.old depth (double_of form parts.old depth (term_of left.now) (term_of right.now)) }
    ensures { IfOk result (Builds parts.old parts.new (double_of form parts.old depth (term_of left.now) (term_of right.now))) }
{
    let left = place(alloc, parts, depth, left)?;
    let right = place(alloc, parts, depth, right)?;
    close_double(alloc, parts, depth, form, left, right)
}

/// Condition, then and else, and their end.
#[cycle(place)]
fn place_ifz(
    alloc: Global,
    parts: &mut Parts,
    depth: u32,
    test: &Term,
    then: &Term,
    otherwise: &Term,
) -> Result<Placed, AllocError>
    requires { HasRoom parts.old depth (part_at parts.old depth (ifz (term_of test.now) (term_of then.now) (term_of otherwise.now))) }
    ensures { IfOk result
        (Builds parts.old parts.new (part_at parts.old depth (ifz (term_of test.now) (term_of then.now) (term_of otherwise.now)))) }
{
    let test = place(alloc, parts, depth, test)?;
    let then = place(alloc, parts, depth, then)?;
    let otherwise = place(alloc, parts, depth, otherwise)?;
    close_ifz(alloc, parts, depth, test, then, otherwise)
}

/// The body, in a context with the binder's type, and its end.
#[cycle(place)]
fn place_fun(
    alloc: Global,
    parts: &mut Parts,
    depth: u32,
    ty: &Ty,
    body: &Term,
) -> Result<Placed, AllocError>
    requires { HasRoom parts.old depth (part_at parts.old depth (lam (ty_of ty.now) (term_of body.now))) }
    ensures { IfOk result (Builds parts.old parts.new (part_at parts.old depth (lam (ty_of ty.now) (term_of body.now)))) }
{
    let body = place_body(alloc, parts, depth, ty, body)?;
    close_fun(alloc, parts, depth, ty, body)
}

/// The body, in a context with the binder's type and one depth further in, and its end.
#[cycle(place)]
fn place_fix(
    alloc: Global,
    parts: &mut Parts,
    depth: u32,
    ty: &Ty,
    body: &Term,
) -> Result<Placed, AllocError>
    requires { HasRoom parts.old depth (part_at parts.old depth (fix (ty_of ty.now) (term_of body.now))) }
    ensures { IfOk result (Builds parts.old parts.new (part_at parts.old depth (fix (ty_of ty.now) (term_of body.now)))) }
{
    let body = place_body(alloc, parts, depth + 1, ty, body)?;
    close_fix(alloc, parts, depth, ty, body)
}

/// The function, the argument one depth further in, and their end.
#[cycle(place)]
fn place_app(
    alloc: Global,
    parts: &mut Parts,
    depth: u32,
    function: &Term,
    argument: &Term,
) -> Result<Placed, AllocError>
    requires { HasRoom parts.old depth (part_at parts.old depth (app (term_of function.now) (term_of argument.now))) }
    ensures { IfOk result (Builds parts.old parts.new (part_at parts.old depth (app (term_of function.now) (term_of argument.now)))) }
{
    let function = place(alloc, parts, depth, function)?;
    let argument = place(alloc, parts, depth + 1, argument)?;
    close_app(alloc, parts, depth, function, argument)
}

/// Places a body in the context with its binder's type.
#[cycle(place)]
fn place_body(
    alloc: Global,
    parts: &mut Parts,
    depth: u32,
    ty: &Ty,
    body: &Term,
) -> Result<Placed, AllocError>
    requires { HasRoom parts.old depth (body_at parts.old depth (ty_of ty.now) (term_of body.now)) }
    ensures { IfOk result (BuildsBody parts.old parts.new (body_at parts.old depth (ty_of ty.now) (term_of body.now))) }
{
    parts.context.push(ty.copy(alloc)?)?;
    let placed = place(alloc, parts, depth, body)?;
    drop(parts.context.pop());
    Ok(placed)
}
