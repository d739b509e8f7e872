//! Copies of a net's wires, whose types lie in memory of their own, and comparison of both of its lists.

ghost use Rattle.std.specs.Prelude.{◌≡◌, ◌↔◌, map, length, IfOk, IsTrue};
ghost use Rattle.net_build.specs.Views.{wire_of};

use crate::{Node, Wire};
use std::alloc::{AllocError, Global};

/// Equal wires.
///
/// # Errors
///
/// `AllocError` when memory runs out.
pub(crate) fn copy_wires(alloc: Global, wires: &[Wire]) -> Result<Vec<Wire>, AllocError>
    ensures wires { IfOk result (λ v. map wire_of v.items ≡ map wire_of wires.now) }
    ensures size { IfOk result (λ v. length v.items ≡ length wires.now) }
{
    let mut copies = Vec::new(alloc);
    for wire in wires {
        copies.push(wire.copy(alloc)?)?;
    }
    Ok(copies)
}

/// Whether both lists are of equal wires.
pub(crate) fn same_wires(left: &[Wire], right: &[Wire]) -> bool
    ensures { IsTrue result ↔ (map wire_of left.now ≡ map wire_of right.now) }
{
    if left.len() != right.len() {
        return false;
    }
    for (i, wire) in left.iter().enumerate() {
        if !wire.same(&right[i]) {
            return false;
        }
    }
    true
}

/// Whether both lists are of equal nodes.
pub(crate) fn same_nodes(left: &[Node], right: &[Node]) -> bool
    ensures { IsTrue result ↔ (left.now ≡ right.now) }
{
    if left.len() != right.len() {
        return false;
    }
    for (i, node) in left.iter().enumerate() {
        if !node.same(right[i]) {
            return false;
        }
    }
    true
}
