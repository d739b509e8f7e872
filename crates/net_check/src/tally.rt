//! How often the nodes of a net name each of its wires.

ghost use Rattle.std.specs.Prelude.{◌≡◌, ◌∷◌, ◌<◌, ◌≤◌, [], length, replicate, slice_get, IfOk};
ghost use Rattle.net_build.specs.Nets.{premises, conclusions};
ghost use Rattle.net_build.specs.Found.{present};
ghost use Rattle.net_check.specs.Counts.{Counted, bumped, once_more};

use net_build::{Net, Node};
use std::alloc::{AllocError, Global};

/// For each wire how often it stands below a node and above one: 0, 1, or 2 for more often.
#[derive(Drop)]
pub(crate) struct Tally {
    pub(crate) below_nodes: Vec<u8>,
    pub(crate) above_nodes: Vec<u8>,
}

/// Counts over all nodes.
pub(crate) fn count_all(alloc: Global, net: &Net) -> Result<Tally, AllocError>
    ensures below { IfOk result (λ t. Counted conclusions (length net.now.wires) net.now.nodes t.below_nodes.items) }
    ensures above { IfOk result (λ t. Counted premises (length net.now.wires) net.now.nodes t.above_nodes.items) }
{
    let mut below_nodes = zeros(alloc, net.wire_count() as usize)?;
    let mut above_nodes = zeros(alloc, net.wire_count() as usize)?;
    for node in net.nodes() {
        count_conclusions(&mut below_nodes, *node);
        count_premises(&mut above_nodes, *node);
    }
    Ok(Tally {
        below_nodes,
        above_nodes,
    })
}

/// A list of so many zeros.
fn zeros(alloc: Global, count: usize) -> Result<Vec<u8>, AllocError>
    ensures { IfOk result (λ v. v.items ≡ replicate count 0) }
{
    vec![in alloc; 0; count]
}

/// Counts one more for each conclusion of the node.
fn count_conclusions(counts: &mut Vec<u8>, node: Node)
    ensures { counts.new.items ≡ bumped (conclusions node) counts.old.items }
{
    let (first, second) = node.conclusions();
    count(counts, first);
    count(counts, second);
}

/// Counts one more for each premise of the node.
fn count_premises(counts: &mut Vec<u8>, node: Node)
    ensures { counts.new.items ≡ bumped (premises node) counts.old.items }
{
    let (first, second, third) = node.premises();
    count(counts, first);
    count(counts, second);
    count(counts, third);
}

/// Counts one more for the wire, if there is one.
fn count(counts: &mut Vec<u8>, wire: Option<u32>)
    ensures { counts.new.items ≡ bumped (present (wire ∷ [])) counts.old.items }
{
    if let Some(wire) = wire {
        let wire = wire as usize;
        if wire < counts.len() {
            counts[wire] = if counts[wire] == 0 { 1 } else { 2 };
        }
    }
}
