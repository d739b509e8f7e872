//! Whether a node meets its row: first by kinds and types, and then by depths.

ghost use Rattle.std.specs.Prelude.{◌≡◌, ◌↔◌, ℕ, suc, Some, IsTrue, slice_get};
ghost use Rattle.std.specs.Option.{option_map};
ghost use Rattle.pcf_values.specs.Terms.{TyTree, nat, arrow, product};
ghost use Rattle.pcf_values.specs.Views.{ty_of};
ghost use Rattle.net_build.specs.Views.{wire_of};
ghost use Rattle.net_build.specs.declared.wire.WireKind.TheVariants.{Value, Bang, Variable};
ghost use Rattle.net_check.specs.Rows.{AreAllOne, AreOne, Deep, DepthsMeet, IsArrow, IsPart, IsProduct, TypesMeet, depth_in};
ghost use Rattle.net_check.specs.Rows.{type_if, value_type};

use net_build::{Net, Node, Wire, WireKind};
use pcf_values::{Side, Ty};

/// Whether the node's wires are of the kinds and types that its row asks.
pub(crate) fn types_meet(net: &Net, node: Node) -> bool
    ensures { IsTrue result ↔ TypesMeet net.now node }
{
    match node {
        Node::Const { wire, .. } | Node::Root { wire } => is_nat(net, wire),
        Node::Succ { operand, wire } | Node::Pred { operand, wire } => is_nat(net, operand)
            && is_nat(net, wire),
        Node::Binary {
            left,
            right,
            wire,
            ..
        } => { is_nat(net, left) && is_nat(net, right) && is_nat(net, wire) }
        Node::Ifz {
            condition,
            then,
            otherwise,
            wire,
        } => {
            is_nat(net, condition)
                && is_nat(net, then)
                && is_nat(net, otherwise)
                && is_nat(net, wire)
        }
        Node::Der { wire, variable: x } => are_one(value(net, wire), variable(net, x)),
        Node::Con { left, right, wire } => are_all_one(
            variable(net, left),
            variable(net, right),
            variable(net, wire),
        ),
        Node::Weak { variable: x } => variable(net, x).is_some(),
        Node::Lam {
            body,
            variable: x,
            wire,
        } => is_arrow(value(net, wire), variable(net, x), value(net, body)),
        Node::App {
            function,
            argument,
            wire,
        } => is_arrow(value(net, function), bang(net, argument), value(net, wire)),
        Node::BoxNode {
            inside: i,
            outside: o,
        } => are_one(value(net, i), bang(net, o)),
        Node::Door {
            inside: i,
            outside: o,
        } => are_one(variable(net, i), variable(net, o)),
        Node::FixBox {
            body,
            variable: x,
            wire,
        } => are_all_one(value(net, body), variable(net, x), value(net, wire)),
        Node::Pair { left, right, wire } => is_product(
            value(net, wire),
            value(net, left),
            value(net, right),
        ),
        Node::Proj {
            side,
            operand,
            wire,
        } => is_part(side, value(net, operand), value(net, wire)),
    }
}

/// The type of a wire, where it is a value wire.
fn value(net: &Net, n: u32) -> Option<&Ty>
    ensures { option_map (λ t. ty_of t.now) result ≡ type_if Value (slice_get net.now.wires n) }
{
    of_kind(net.wire(n), WireKind::Value)
}

/// The type of a wire, where it is a bang wire.
fn bang(net: &Net, n: u32) -> Option<&Ty>
    ensures { option_map (λ t. ty_of t.now) result ≡ type_if Bang (slice_get net.now.wires n) }
{
    of_kind(net.wire(n), WireKind::Bang)
}

/// The type of a wire, where it is a variable wire.
fn variable(net: &Net, n: u32) -> Option<&Ty>
    ensures { option_map (λ t. ty_of t.now) result ≡ type_if Variable (slice_get net.now.wires n) }
{
    of_kind(net.wire(n), WireKind::Variable)
}

/// The type of the wire, if there is one and it is of this kind.
fn of_kind(wire: Option<&Wire>, kind: WireKind) -> Option<&Ty>
    ensures { option_map (λ t. ty_of t.now) result ≡ type_if kind (option_map (λ w. wire_of w.now) wire.entry) }
{
    match wire {
        Some(wire) if wire.kind == kind => Some(&wire.ty),
        _ => None,
    }
}

/// Whether the wire is a value wire of type `nat`.
fn is_nat(net: &Net, n: u32) -> bool
    ensures { IsTrue result ↔ (value_type net.now n ≡ Some nat) }
{
    match value(net, n) {
        Some(Ty::Nat) => true,
        _ => false,
    }
}

/// Whether both are there and one type.
fn are_one(a: Option<&Ty>, b: Option<&Ty>) -> bool
    ensures { IsTrue result ↔ AreOne (option_map (λ t. ty_of t.now) a.entry) (option_map (λ t. ty_of t.now) b.entry) }
{
    match (a, b) {
        (Some(a), Some(b)) => a.same(b),
        _ => false,
    }
}

/// Whether all three are there and one type.
fn are_all_one(a: Option<&Ty>, b: Option<&Ty>, c: Option<&Ty>) -> bool
    ensures { IsTrue result ↔ AreAllOne (option_map (λ t. ty_of t.now) a.entry) (option_map (λ t. ty_of t.now) b.entry)
        (option_map (λ t. ty_of t.now) c.entry) }
{
    match (a, b, c) {
        (Some(a), Some(b), Some(c)) => a.same(b) && a.same(c),
        _ => false,
    }
}

/// Whether the first is the type of functions from the second to the third.
fn is_arrow(function: Option<&Ty>, from: Option<&Ty>, to: Option<&Ty>) -> bool
    ensures { IsTrue result ↔ IsArrow (option_map (λ t. ty_of t.now) function.entry) (option_map (λ t. ty_of t.now) from.entry)
        (option_map (λ t. ty_of t.now) to.entry) }
{
    match (function, from, to) {
        (Some(Ty::Arrow(a, b)), Some(from), Some(to)) => a.same(from) && b.same(to),
        _ => false,
    }
}

/// Whether the first is the type of pairs of the second and the third.
fn is_product(pair: Option<&Ty>, left: Option<&Ty>, right: Option<&Ty>) -> bool
    ensures { IsTrue result ↔ IsProduct (option_map (λ t. ty_of t.now) pair.entry) (option_map (λ t. ty_of t.now) left.entry)
        (option_map (λ t. ty_of t.now) right.entry) }
{
    match (pair, left, right) {
        (Some(Ty::Product(a, b)), Some(left), Some(right)) => a.same(left) && b.same(right),
        _ => false,
    }
}

/// Whether the first is the type of pairs whose part on this side has the second.
fn is_part(side: Side, pair: Option<&Ty>, part: Option<&Ty>) -> bool
    ensures { IsTrue result ↔ IsPart side (option_map (λ t. ty_of t.now) pair.entry) (option_map (λ t. ty_of t.now) part.entry) }
{
    match (pair, part) {
        (Some(Ty::Product(a, b)), Some(part)) => match side {
            Side::Left => a.same(part),
            Side::Right => b.same(part),
        },
        _ => false,
    }
}

/// Whether the node's wires are at the depths that its row asks.
pub(crate) fn depths_meet(net: &Net, node: Node) -> bool
    ensures { IsTrue result ↔ DepthsMeet net.now node }
{
    match node {
        Node::Const { wire, .. } => depth(net, wire).is_some(),
        Node::Weak { variable } => depth(net, variable).is_some(),
        Node::Root { wire } => depth(net, wire) == Some(0),
        Node::Succ { operand, wire }
        | Node::Pred { operand, wire }
        | Node::Proj { operand, wire, .. } => level(net, operand, wire),
        Node::Der { wire, variable } => level(net, wire, variable),
        Node::Binary {
            left,
            right,
            wire,
            ..
        }
        | Node::Pair { left, right, wire } => { level(net, left, right) && level(net, left, wire) }
        Node::Con { left, right, wire } => level(net, left, right) && level(net, left, wire),
        Node::Lam {
            body,
            variable,
            wire,
        } => level(net, body, variable) && level(net, body, wire),
        Node::App {
            function,
            argument,
            wire,
        } => level(net, function, argument) && level(net, function, wire),
        Node::Ifz {
            condition,
            then,
            otherwise,
            wire,
        } => {
            level(net, condition, then)
                && level(net, condition, otherwise)
                && level(net, condition, wire)
        }
        Node::BoxNode {
            inside: i,
            outside: o,
        }
        | Node::Door {
            inside: i,
            outside: o,
        } => inside(net, i, o),
        Node::FixBox {
            body,
            variable,
            wire,
        } => inside(net, body, wire) && inside(net, variable, wire),
    }
}

/// The depth of a wire, or none for a wire past the list.
fn depth(net: &Net, n: u32) -> Option<u32>
    ensures { result ≡ depth_in (slice_get net.now.wires n) }
{
    match net.wire(n) {
        Some(wire) => Some(wire.depth),
        None => None,
    }
}

/// Whether both wires are there and at one depth.
fn level(net: &Net, a: u32, b: u32) -> bool
    ensures { IsTrue result ↔ ((d : ℕ) × Deep net.now a d × Deep net.now b d) }
{
    match (depth(net, a), depth(net, b)) {
        (Some(a), Some(b)) => a == b,
        _ => false,
    }
}

/// Whether the first wire is one deeper than the second. No depth is one deeper than 4294967295.
fn inside(net: &Net, a: u32, b: u32) -> bool
    ensures { IsTrue result ↔ ((d : ℕ) × Deep net.now a (suc d) × Deep net.now b d) }
{
    match (depth(net, a), depth(net, b)) {
        (Some(a), Some(b)) => b < a && a - b == 1,
        _ => false,
    }
}
