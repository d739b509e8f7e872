//! Where a run begins.

ghost use Rattle.std.specs.Prelude.{◌≡◌};
ghost use Rattle.net_build.specs.Sound.{roots};
ghost use Rattle.interleave_laws.specs.Start.{root_wire};
ghost use Rattle.interleave_core.specs.Roots.{root_at};

use net_build::{Net, Node};

/// The wire of a root, if the node is one.
fn at(node: Node) -> Option<u32>
    ensures { result ≡ root_at node }
{
    match node {
        Node::Root { wire } => Some(wire),
        _ => None,
    }
}

/// The wire of the net's first root, which is that of the program's value; 0 where there is no root.
pub(crate) fn root(net: &Net) -> u32
    ensures { result ≡ root_wire net.now.nodes }
{
    for node in net.nodes() {
        if let Some(wire) = at(*node) {
            return wire;
        }
    }
    0
}

/// The wire of the root of a net that has one. In the net of a term it is the last node, so that one is looked at first.
pub(crate) fn only_root(net: &Net) -> u32
    requires { roots net.now.nodes ≡ 1 }
    ensures { result ≡ root_wire net.now.nodes }
{
    if let Some(last) = net.nodes().last() {
        if let Some(wire) = at(*last) {
            return wire;
        }
    }
    root(net)
}
