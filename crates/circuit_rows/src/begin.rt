//! Where a run begins.

ghost use Rattle.std.specs.Prelude.{◌≡◌};
ghost use Rattle.interleave_laws.specs.Start.{root_wire, start_of};
ghost use Rattle.net_rows.specs.Rows.{channel_of as channel_at};
ghost use Rattle.circuit_rows.specs.Views.{channel_of};

use crate::row::Channel;
use net_build::{Net, Node};

/// The wire of the first root, or 0.
fn root_wire(nodes: &[Node]) -> u32
    ensures { result ≡ root_wire nodes.now }
{
    for node in nodes {
        if let Node::Root { wire } = *node {
            return wire;
        }
    }
    0
}

/// The channel of the first question of a run: up the wire of the program's value.
pub fn start(net: &Net) -> Channel
    ensures { channel_of result ≡ channel_at (start_of net.now) }
{
    Channel {
        wire: root_wire(net.nodes()),
        up: true,
    }
}
