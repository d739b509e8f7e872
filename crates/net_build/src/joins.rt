//! Contractions and doors: the nodes that a term's free variables need.

ghost use Rattle.std.specs.Prelude.{◌≡◌, ◌⊎◌, ◌<◌, ◌+◌, ◌^◌, ◌++◌, ◌∷◌, [], length, reverse, IfOk};
ghost use Rattle.net_build.specs.Building.{AreLoose, Bundles, IsFirst, Takes, Varies, contract_at, doors_at};

use crate::parts::{Loose, Parts};
use crate::{Node, Wire, WireKind};
use std::alloc::{AllocError, Global};

/// Contracts two lists of loose wires, the first on the left: a Con for each variable that stands in both, by rising index. Only the
/// part of a list that lies above the other's last entry is looked at; the rest stays where it is.
pub(crate) fn contract(
    alloc: Global,
    parts: &mut Parts,
    depth: u32,
    mut left: Vec<Loose>,
    mut right: Vec<Loose>,
) -> Result<Vec<Loose>, AllocError>
    requires lefts { AreLoose parts.old left.items }
    requires rights { AreLoose parts.old right.items }
    requires room { length parts.old.wires.items + length (contract_at parts.old depth left.items right.items).wires < 2 ^ 32 }
    ensures { IfOk result (λ v. Bundles parts.old parts.new (contract_at parts.old depth left.items right.items) v.items) }
{
    let mut joined = Vec::new(alloc);
    while !left.is_empty() && !right.is_empty() {
        let next = take(alloc, parts, depth, &mut left, &mut right)?;
        joined.push(next)?;
    }
    upon(left, right, joined)
}

/// The innermost variable's wire leaves its list, or both lists by a Con.
fn take(
    alloc: Global,
    parts: &mut Parts,
    depth: u32,
    left: &mut Vec<Loose>,
    right: &mut Vec<Loose>,
) -> Result<Loose, AllocError>
    requires lefts { AreLoose parts.old left.old.items }
    requires some_left { 0 < length left.old.items }
    requires some_right { 0 < length right.old.items }
    requires room { length parts.old.wires.items < 2 ^ 32 }
    ensures { IfOk result
        (λ u. Takes parts.old parts.new depth (reverse left.old.items) (reverse right.old.items) (reverse left.new.items)
        (reverse right.new.items) u) }
{
    let u = last(left);
    let v = last(right);
    if u.binder == v.binder {
        let node = Node::Con {
            left: u.wire,
            right: v.wire,
            wire: parts.next(),
        };
        let joined = variable(alloc, parts, depth, u.binder, node)?;
        pop_last(left);
        pop_last(right);
        Ok(joined)
    } else if v.binder < u.binder {
        Ok(pop_last(left))
    } else {
        Ok(pop_last(right))
    }
}

/// What is left of two lists, one of which is empty, with the joined wires, which are further in.
fn upon(
    left: Vec<Loose>,
    right: Vec<Loose>,
    mut joined: Vec<Loose>,
) -> Result<Vec<Loose>, AllocError>
    requires { (left.items ≡ []) ⊎ (right.items ≡ []) }
    ensures { IfOk result (λ v. reverse v.items ≡ joined.items ++ (reverse left.items ++ reverse right.items)) }
{
    let mut rest = if left.is_empty() { right } else { left };
    joined.reverse();
    rest.append(&mut joined)?;
    Ok(rest)
}

/// A Door for each loose wire, by rising index, to a new variable wire at this depth.
pub(crate) fn doors(
    alloc: Global,
    parts: &mut Parts,
    depth: u32,
    mut inside: Vec<Loose>,
) -> Result<Vec<Loose>, AllocError>
    requires falling { AreLoose parts.old inside.items }
    requires room { length parts.old.wires.items + length (doors_at parts.old depth inside.items).wires < 2 ^ 32 }
    ensures { IfOk result (λ v. Bundles parts.old parts.new (doors_at parts.old depth inside.items) v.items) }
{
    let mut outside = Vec::new(alloc);
    while !inside.is_empty() {
        let loose = pop_last(&mut inside);
        let node = Node::Door {
            inside: loose.wire,
            outside: parts.next(),
        };
        outside.push(variable(alloc, parts, depth, loose.binder, node)?)?;
    }
    outside.reverse();
    Ok(outside)
}

/// A variable wire of a binder, with the node above it.
fn variable(
    alloc: Global,
    parts: &mut Parts,
    depth: u32,
    binder: usize,
    node: Node,
) -> Result<Loose, AllocError>
    requires binder { binder < length parts.old.context.items }
    requires room { length parts.old.wires.items < 2 ^ 32 }
    ensures { IfOk result (λ u. Varies parts.old parts.new depth binder node u) }
{
    let wire = parts.next();
    let ty = parts.context[binder].copy(alloc)?;
    parts.add(
        Wire {
            kind: WireKind::Variable,
            depth,
            ty,
        },
        node,
    )?;
    Ok(Loose { binder, wire })
}

/// The last entry of a list.
fn last(list: &Vec<Loose>) -> Loose
    requires { 0 < length list.now.items }
    ensures { IsFirst result (reverse list.now.items) }
{
    list[list.len() - 1]
}

/// Takes the last entry off.
pub(crate) fn pop_last(list: &mut Vec<Loose>) -> Loose
    requires { 0 < length list.old.items }
    ensures { reverse list.old.items ≡ result ∷ reverse list.new.items }
{
    match list.pop() {
        Some(loose) => loose,
        None => unreachable!(),
    }
}
