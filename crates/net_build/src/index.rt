//! For each wire of a net the least node on a side of it, found in one pass over the nodes.

ghost use Rattle.std.specs.Prelude.{◌≡◌, ◌<◌, ◌^◌, ◌∷◌, [], length, replicate, IfOk};
ghost use Rattle.net_build.specs.Index.{Indexes, marked, wires_with};
ghost use Rattle.net_build.specs.Found.{present};

use crate::Node;
use std::alloc::{AllocError, Global};

/// The side of a wire on which a node stands.
#[derive(Clone, Copy)]
pub(crate) enum Face {
    Above,
    Below,
}

/// For each of `wires` wires the least node on that side of it. What a node names past these wires is left out.
pub(crate) fn index(
    alloc: Global,
    face: Face,
    wires: usize,
    nodes: &[Node],
) -> Result<Vec<Option<u32>>, AllocError>
    requires { length nodes.now < 2 ^ 32 }
    ensures { IfOk result (λ v. Indexes (wires_with face) wires 0 nodes.now v.items) }
{
    let mut least = none_of(alloc, wires)?;
    let mut n = nodes.len();
    // From the last node to the first, so that the least one is written last.
    while n > 0 {
        n -= 1;
        mark_each(&mut least, face, nodes[n], n as u32);
    }
    Ok(least)
}

/// A list of so many entries, none of which has a node yet.
fn none_of(alloc: Global, count: usize) -> Result<Vec<Option<u32>>, AllocError>
    ensures { IfOk result (λ v. v.items ≡ replicate count None) }
{
    vec![in alloc; None; count]
}

/// Marks a node on the wires that it has on this face.
fn mark_each(least: &mut Vec<Option<u32>>, face: Face, node: Node, n: u32)
    ensures { least.new.items ≡ marked n (wires_with face node) least.old.items }
{
    let (first, second, third) = on_face(face, node);
    mark(least, first, n);
    mark(least, second, n);
    mark(least, third, n);
}

/// The wires that a node has on this face.
fn on_face(face: Face, node: Node) -> (Option<u32>, Option<u32>, Option<u32>)
    ensures { present (result.0 ∷ result.1 ∷ result.2 ∷ []) ≡ wires_with face node }
{
    match face {
        Face::Above => {
            let (first, second) = node.conclusions();
            (first, second, None)
        }
        Face::Below => node.premises(),
    }
}

/// Writes the node at the wire, if there is one and the list has it.
fn mark(least: &mut Vec<Option<u32>>, wire: Option<u32>, n: u32)
    ensures { least.new.items ≡ marked n (present (wire ∷ [])) least.old.items }
{
    if let Some(wire) = wire {
        let wire = wire as usize;
        if wire < least.len() {
            least[wire] = Some(n);
        }
    }
}
