//! The ends of the forms: the last wires and nodes of each form of term, once its operands are placed. A wire's type is read off the
//! wires that are placed, where the definition carries it beside each part.

ghost use Rattle.std.specs.Prelude.{◌≡◌, ◌<◌, ◌+◌, ◌-◌, ◌^◌, ◌∷◌, [], length, suc, reverse, slice_get, IfOk};
ghost use Rattle.pcf_values.specs.Terms.{arrow};
ghost use Rattle.pcf_values.specs.Views.{ty_of};
ghost use Rattle.net_build.specs.NetOf.{domain, codomain};
ghost use Rattle.net_build.specs.Building.{AreLoose, Binds, Builds, Bundles, Falling, Finishes, HasRoom, IsBody, IsPlaced, app_here};
ghost use Rattle.net_build.specs.Building.{box_here, box_wire, double_here, fix_here, ifz_here, lam_here, uses_first};

use crate::double::Double;
use crate::joins::{contract, doors, pop_last};
use crate::parts::{Loose, Parts, Placed};
use crate::{Node, Wire, WireKind};
use pcf_values::Ty;
use std::alloc::{AllocError, Global};

/// Adds the last value wire of a term, and its node.
pub(crate) fn finish(
    parts: &mut Parts,
    depth: u32,
    ty: Ty,
    node: Node,
    free: Vec<Loose>,
) -> Result<Placed, AllocError>
    requires { length parts.old.wires.items < 2 ^ 32 }
    ensures { IfOk result (λ r. Finishes parts.old parts.new depth (ty_of ty) node free.items r) }
{
    let out = parts.next();
    let wire = Wire {
        kind: WireKind::Value,
        depth,
        ty,
    };
    parts.add(wire, node)?;
    Ok(Placed { out, free })
}

/// The definition's `double_end`: the contractions of both operands' variables, and the node.
pub(crate) fn close_double(
    alloc: Global,
    parts: &mut Parts,
    depth: u32,
    form: Double,
    left: Placed,
    right: Placed,
) -> Result<Placed, AllocError>
    requires left { IsPlaced parts.old left }
    requires right { IsPlaced parts.old right }
    requires room { HasRoom parts.old depth (double_here form parts.old depth left right) }
    ensures { IfOk result (Builds parts.old parts.new (double_here form parts.old depth left right)) }
{
    let ty = form.ty(alloc, parts.ty(left.out), parts.ty(right.out))?;
    let free = contract(alloc, parts, depth, left.free, right.free)?;
    let node = form.node(left.out, right.out, parts.next());
    finish(parts, depth, ty, node, free)
}

/// `ifz_end`: the branches are contracted first, and then the condition with them.
pub(crate) fn close_ifz(
    alloc: Global,
    parts: &mut Parts,
    depth: u32,
    test: Placed,
    then: Placed,
    otherwise: Placed,
) -> Result<Placed, AllocError>
    requires test { IsPlaced parts.old test }
    requires then { IsPlaced parts.old then }
    requires otherwise { IsPlaced parts.old otherwise }
    requires room { HasRoom parts.old depth (ifz_here parts.old depth test then otherwise) }
    ensures { IfOk result (Builds parts.old parts.new (ifz_here parts.old depth test then otherwise)) }
{
    let branches = contract(alloc, parts, depth, then.free, otherwise.free)?;
    let free = contract(alloc, parts, depth, test.free, branches)?;
    let node = Node::Ifz {
        condition: test.out,
        then: then.out,
        otherwise: otherwise.out,
        wire: parts.next(),
    };
    finish(parts, depth, Ty::Nat, node, free)
}

/// `lam_end`: the binder's wire, and the function.
pub(crate) fn close_fun(
    alloc: Global,
    parts: &mut Parts,
    depth: u32,
    ty: &Ty,
    body: Placed,
) -> Result<Placed, AllocError>
    requires body { IsBody parts.old body }
    requires room { HasRoom parts.old depth (lam_here parts.old depth (ty_of ty.now) body) }
    ensures { IfOk result (Builds parts.old parts.new (lam_here parts.old depth (ty_of ty.now) body)) }
{
    let whole = arrow_of(alloc, ty, parts.ty(body.out))?;
    let mut free = body.free;
    let variable = bind(alloc, parts, depth, ty, &mut free)?;
    let node = Node::Lam {
        body: body.out,
        variable,
        wire: parts.next(),
    };
    finish(parts, depth, whole, node, free)
}

/// `fix_end`, after a body one depth further in: the binder's wire there, doors for its other variables, and the box.
pub(crate) fn close_fix(
    alloc: Global,
    parts: &mut Parts,
    depth: u32,
    ty: &Ty,
    body: Placed,
) -> Result<Placed, AllocError>
    requires body { IsBody parts.old body }
    requires room { HasRoom parts.old depth (fix_here parts.old depth (ty_of ty.now) body) }
    ensures { IfOk result (Builds parts.old parts.new (fix_here parts.old depth (ty_of ty.now) body)) }
{
    let mut free = body.free;
    let variable = bind(alloc, parts, depth + 1, ty, &mut free)?;
    let free = doors(alloc, parts, depth, free)?;
    let node = Node::FixBox {
        body: body.out,
        variable,
        wire: parts.next(),
    };
    finish(parts, depth, ty.copy(alloc)?, node, free)
}

/// `app_end`, after the function and an argument one depth further in: the box with its doors, the contractions, and the application.
pub(crate) fn close_app(
    alloc: Global,
    parts: &mut Parts,
    depth: u32,
    function: Placed,
    argument: Placed,
) -> Result<Placed, AllocError>
    requires function { IsPlaced parts.old function }
    requires argument { IsPlaced parts.old argument }
    requires room { HasRoom parts.old depth (app_here parts.old depth function argument) }
    ensures { IfOk result (Builds parts.old parts.new (app_here parts.old depth function argument)) }
{
    let from = domain_of(alloc, parts.ty(function.out))?;
    let boxed = close_box(alloc, parts, depth, from, argument)?;
    let free = contract(alloc, parts, depth, function.free, boxed.free)?;
    let node = Node::App {
        function: function.out,
        argument: boxed.out,
        wire: parts.next(),
    };
    let to = codomain_of(alloc, parts.ty(function.out))?;
    finish(parts, depth, to, node, free)
}

/// What an argument is, once it is boxed: its bang wire, and the loose wires outside.
#[derive(Drop)]
struct Boxed {
    out: u32,
    free: Vec<Loose>,
}

/// Doors for the argument's variables, and the box on its value wire.
fn close_box(
    alloc: Global,
    parts: &mut Parts,
    depth: u32,
    ty: Ty,
    argument: Placed,
) -> Result<Boxed, AllocError>
    requires loose { AreLoose parts.old argument.free.items }
    requires room { length parts.old.wires.items + length (box_here parts.old depth (ty_of ty) argument).wires < 2 ^ 32 }
    ensures bundle { IfOk result (λ b. Bundles parts.old parts.new (box_here parts.old depth (ty_of ty) argument) b.free.items) }
    ensures wire { IfOk result (λ b. b.out ≡ box_wire parts.old depth argument) }
{
    let free = doors(alloc, parts, depth, argument.free)?;
    let out = parts.next();
    let wire = Wire {
        kind: WireKind::Bang,
        depth,
        ty,
    };
    let node = Node::BoxNode {
        inside: argument.out,
        outside: out,
    };
    parts.add(wire, node)?;
    Ok(Boxed { out, free })
}

/// The binder's variable wire, off the body's list where the body uses it, and else of a Weak. The context is that outside.
fn bind(
    alloc: Global,
    parts: &mut Parts,
    depth: u32,
    ty: &Ty,
    free: &mut Vec<Loose>,
) -> Result<u32, AllocError>
    requires falling { Falling (suc (length parts.old.context.items)) (reverse free.old.items) }
    requires room { length parts.old.wires.items < 2 ^ 32 }
    ensures { IfOk result (λ x. Binds parts.old parts.new depth (ty_of ty.now) free.old.items free.new.items x) }
{
    if uses(free, parts.context.len()) {
        return Ok(pop_last(free).wire);
    }
    let x = parts.next();
    let wire = Wire {
        kind: WireKind::Variable,
        depth,
        ty: ty.copy(alloc)?,
    };
    parts.add(wire, Node::Weak { variable: x })?;
    Ok(x)
}

/// Whether the innermost loose wire is of this binder.
fn uses(free: &Vec<Loose>, binder: usize) -> bool
    ensures { result ≡ uses_first binder (reverse free.now.items) }
{
    match free.last() {
        Some(loose) => loose.binder == binder,
        None => false,
    }
}

/// The type of functions from a type to another.
fn arrow_of(alloc: Global, from: &Ty, to: &Ty) -> Result<Ty, AllocError>
    ensures { IfOk result (λ t. ty_of t ≡ arrow (ty_of from.now) (ty_of to.now)) }
{
    let from = Box::new(alloc, from.copy(alloc)?)?;
    Ok(Ty::Arrow(from, Box::new(alloc, to.copy(alloc)?)?))
}

/// What a function takes. What is no function, which no typed term applies, takes `nat`.
fn domain_of(alloc: Global, function: &Ty) -> Result<Ty, AllocError>
    ensures { IfOk result (λ t. ty_of t ≡ domain (ty_of function.now)) }
{
    match function {
        Ty::Arrow(from, _) => from.copy(alloc),
        _ => Ok(Ty::Nat),
    }
}

/// What a function gives. What is no function, which no typed term applies, gives `nat`.
fn codomain_of(alloc: Global, function: &Ty) -> Result<Ty, AllocError>
    ensures { IfOk result (λ t. ty_of t ≡ codomain (ty_of function.now)) }
{
    match function {
        Ty::Arrow(_, to) => to.copy(alloc),
        _ => Ok(Ty::Nat),
    }
}
