//! Maps of maps, and the one entry of them that a call changes.

ghost use Rattle.std.specs.Prelude.{◌≡◌, ◌↔◌, Some, None, IsSome, IsTrue, OnOk, OnErr};
ghost use Rattle.std.specs.BTreeMap as tree;
ghost use Rattle.std.specs.BTreeMap.{IsUnchanged, IsOrdered};
ghost use Rattle.std.specs.Ordering.{nat_cmp};
ghost use Rattle.token_stacks.specs.Order.{box_cmp};
ghost use Rattle.fork_join.specs.Nested.{kept_at, arrival_at, kept_first, kept_after, PutsIn, entry_at, Puts, Keeps};

use crate::Arrived;
use pcf_values::{Side, Val};
use std::alloc::{AllocError, Global};
use std::collections::BTreeMap;
use token_stacks::BoxStack;

/// What an open fork has kept.
#[derive(Clone, Copy, PartialEq, Eq)]
pub enum Kept {
    /// No answer came yet.
    Nothing,
    /// The left operand's value.
    Left(Val),
    /// The right operand's value.
    Right(Val),
}

/// The open forks of one node.
pub(crate) type Forks = BTreeMap<BoxStack, Kept>;

/// The open forks of all nodes.
pub(crate) type Nodes = BTreeMap<u32, Forks>;

/// Opens an entry, in which this is kept from the beginning.
fn open(forks: &mut Forks, boxes: BoxStack, kept: Kept) -> Result<(), AllocError>
    ensures ok { OnOk result (PutsIn forks.old forks.new boxes (Some kept)) }
    ensures err { OnErr result (IsUnchanged forks.old forks.new) }
{
    forks.insert(boxes, kept)?;
    Ok(())
}

/// A value as it is kept for a side.
fn kept_value(side: Side, v: Val) -> Kept
    ensures { result ≡ kept_at side v }
{
    match side {
        Side::Left => Kept::Left(v),
        Side::Right => Kept::Right(v),
    }
}

/// Keeps the value in the entry that is there, where nothing is kept yet, and else answers what is kept.
fn keep_first(forks: &mut Forks, boxes: &BoxStack, side: Side, v: Val) -> Arrived
    requires { IsSome (tree.get box_cmp forks.old boxes.now) }
    ensures arrived { result ≡ arrival_at (tree.get box_cmp forks.old boxes.now) }
    ensures rest { PutsIn forks.old forks.new boxes.now (kept_first (tree.get box_cmp forks.old boxes.now) side v) }
{
    match forks.get_mut(boxes) {
        Some(place) => keep(place, side, v),
        None => unreachable!(),
    }
}

/// The same at the place of the entry.
fn keep(place: &mut Kept, side: Side, v: Val) -> Arrived
    ensures arrived { result ≡ arrival_at (Some place.old) }
    ensures rest { Some place.new ≡ kept_first (Some place.old) side v }
{
    match *place {
        Kept::Nothing => {
            *place = kept_value(side, v);
            Arrived::First
        }
        Kept::Left(w) | Kept::Right(w) => Arrived::Both(w),
    }
}

/// Takes an entry out.
fn close(forks: &mut Forks, boxes: &BoxStack)
    ensures { PutsIn forks.old forks.new boxes.now None }
{
    forks.remove(boxes);
}

/// Brings an answer to the fork of one node.
fn land(forks: &mut Forks, boxes: &BoxStack, side: Side, v: Val) -> Arrived
    requires { IsSome (tree.get box_cmp forks.old boxes.now) }
    ensures arrived { result ≡ arrival_at (tree.get box_cmp forks.old boxes.now) }
    ensures rest { PutsIn forks.old forks.new boxes.now (kept_after (tree.get box_cmp forks.old boxes.now) side v) }
{
    let arrived = keep_first(forks, boxes, side, v);
    if let Arrived::Both(_) = arrived {
        close(forks, boxes);
    }
    arrived
}

/// Puts an entry with what it keeps into the map of its node. Where memory runs out no entry is another one.
pub(crate) fn put_in(
    nodes: &mut Nodes,
    alloc: Global,
    node: u32,
    boxes: BoxStack,
    kept: Kept,
) -> Result<(), AllocError>
    requires { IsOrdered nat_cmp nodes.old }
    ensures ok { OnOk result (Puts nodes.old nodes.new node boxes (Some kept)) }
    ensures err { OnErr result (Keeps nodes.old nodes.new) }
    ensures ordered { IsOrdered nat_cmp nodes.new }
{
    match nodes.get_mut(&node) {
        Some(forks) => open(forks, boxes, kept)?,
        None => {
            let mut forks = BTreeMap::new(alloc);
            open(&mut forks, boxes, kept)?;
            nodes.insert(node, forks)?;
        }
    }
    Ok(())
}

/// Brings an answer to its entry.
pub(crate) fn arrive_in(
    nodes: &mut Nodes,
    node: u32,
    boxes: &BoxStack,
    side: Side,
    v: Val,
) -> Arrived
    requires there { IsSome (entry_at nodes.old node boxes.now) }
    requires sorted { IsOrdered nat_cmp nodes.old }
    ensures arrived { result ≡ arrival_at (entry_at nodes.old node boxes.now) }
    ensures rest { Puts nodes.old nodes.new node boxes.now (kept_after (entry_at nodes.old node boxes.now) side v) }
    ensures ordered { IsOrdered nat_cmp nodes.new }
{
    match nodes.get_mut(&node) {
        Some(forks) => land(forks, boxes, side, v),
        None => unreachable!(),
    }
}

/// Takes an entry out, if it is there.
pub(crate) fn remove_in(nodes: &mut Nodes, node: u32, boxes: &BoxStack)
    requires { IsOrdered nat_cmp nodes.old }
    ensures rest { Puts nodes.old nodes.new node boxes.now None }
    ensures ordered { IsOrdered nat_cmp nodes.new }
{
    match nodes.get_mut(&node) {
        Some(forks) => close(forks, boxes),
        None => {}
    }
}

/// Whether there is an entry.
pub(crate) fn has_in(nodes: &Nodes, node: u32, boxes: &BoxStack) -> bool
    ensures { IsTrue result ↔ IsSome (entry_at nodes.now node boxes.now) }
{
    match nodes.get(&node) {
        Some(forks) => forks.contains_key(boxes),
        None => false,
    }
}
