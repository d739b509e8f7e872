//! Wires that aren't held: that don't stand once on each side, or that are named and lacked.

ghost use Rattle.std.specs.Prelude.{◌≡◌, ◌<◌, ◌≤◌, ◌∷◌, [], ℕ, length};
ghost use Rattle.net_build.specs.Nets.{premises, conclusions};
ghost use Rattle.net_build.specs.Found.{present};
ghost use Rattle.net_check.specs.Counts.{IsLeastOdd, lesser_of, past_from};

use net_build::{Net, Node};

/// The least wire, of so many, with a count that isn't 1.
pub(crate) fn first_odd(wires: u32, below_nodes: &[u8], above_nodes: &[u8]) -> Option<u32>
    requires below { length below_nodes.now ≡ wires }
    requires above { length above_nodes.now ≡ wires }
    ensures { IsLeastOdd below_nodes.now above_nodes.now result }
{
    for n in 0..wires {
        if below_nodes[n as usize] != 1 || above_nodes[n as usize] != 1 {
            return Some(n);
        }
    }
    None
}

/// The least number past the list of wires that a node names.
pub(crate) fn least_past(net: &Net) -> Option<u32>
    ensures { result ≡ past_from (length net.now.wires) net.now.nodes None }
{
    let count = net.wire_count();
    let mut least = None;
    for node in net.nodes() {
        least = least_of_node(count, least, *node);
    }
    least
}

/// The lesser of a number and those past the list that a node names.
fn least_of_node(count: u32, least: Option<u32>, node: Node) -> Option<u32>
    ensures { result ≡ lesser_of count (premises node) (lesser_of count (conclusions node) least) }
{
    let (first, second) = node.conclusions();
    let least = lesser_past(count, lesser_past(count, least, first), second);
    let (first, second, third) = node.premises();
    lesser_past(
        count,
        lesser_past(count, lesser_past(count, least, first), second),
        third,
    )
}

/// The lesser of a number and another, where that one is past the list.
fn lesser_past(count: u32, least: Option<u32>, wire: Option<u32>) -> Option<u32>
    ensures { result ≡ lesser_of count (present (wire ∷ [])) least }
{
    match (least, wire) {
        (Some(least), Some(wire)) if wire >= count && wire < least => Some(wire),
        (None, Some(wire)) if wire >= count => Some(wire),
        _ => least,
    }
}
