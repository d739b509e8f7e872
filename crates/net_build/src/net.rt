//! A net as its lists of wires and nodes, with the nodes on both sides of each wire.

ghost use Rattle.std.specs.Prelude.{◌≡◌, ◌<◌, ◌^◌, ◌↔◌, map, length, slice_get, IfOk, IsTrue};
ghost use Rattle.std.specs.Option.{option_map};
ghost use Rattle.net_build.specs.Views.{wire_of};
ghost use Rattle.net_build.specs.Faces.{node_above, node_below};
ghost use Rattle.net_build.specs.Found.{number_of};
ghost use Rattle.net_build.specs.Kept.{entry_at};
ghost use Rattle.net_build.specs.Numbers.{set_at, with_number};

use crate::index::{Face, index};
use crate::lists::{copy_wires, same_nodes, same_wires};
use crate::{Node, Wire};
use std::alloc::{AllocError, Global};
use std::marker::Model;

/// A net, which never changes: contracts see the list of its wires and the list of its nodes. Each list has fewer than 2^32 entries.
#[derive(Drop)]
pub struct Net {
    wires: Vec<Wire>,
    nodes: Vec<Node>,
    above: Vec<Option<u32>>,
    below: Vec<Option<u32>>,
}

impl Model for Net {
    ghost use Rattle.std.specs.Prelude.{map};
    ghost use Rattle.net_build.specs.Nets.{NetTree};

    ghost Value = { NetTree };

    ghost use Rattle.net_build.specs.Codes.{net_code};

    ghost coded = { net_code };

    ghost use Rattle.net_build.specs.Views.{wire_of};
    ghost use Rattle.net_build.specs.Kept.{Kept};

    ghost view = { λ n. record { wires = map wire_of n.wires.items; nodes = n.nodes.items } };

    ghost invariant = { λ n. Kept n.wires.items n.nodes.items n.above.items n.below.items };
}

impl Net {
    /// The net of these two lists, as they are: no node need name a wire of the list.
    ///
    /// # Errors
    ///
    /// `AllocError` where there is no memory for the index of the nodes above and below each wire.
    pub fn from_parts(alloc: Global, wires: Vec<Wire>, nodes: Vec<Node>) -> Result<Net, AllocError>
        requires wires { length wires.items < 2 ^ 32 }
        requires nodes { length nodes.items < 2 ^ 32 }
        ensures { IfOk result (λ n. n ≡ record { wires = map wire_of wires.items; nodes = nodes.items }) }
    {
        let above = index(alloc, Face::Above, wires.len(), &nodes)?;
        let below = index(alloc, Face::Below, wires.len(), &nodes)?;
        Ok(Net {
            wires,
            nodes,
            above,
            below,
        })
    }

    /// All wires, by number.
    pub fn wires(&self) -> &[Wire]
        ensures wires { map wire_of result.now ≡ self.now.wires }
        ensures few { length result.now < 2 ^ 32 }
    {
        self.wires.as_slice()
    }

    /// All nodes, by number.
    pub fn nodes(&self) -> &[Node]
        ensures nodes { result.now ≡ self.now.nodes }
        ensures few { length result.now < 2 ^ 32 }
    {
        self.nodes.as_slice()
    }

    /// How many wires there are.
    pub fn wire_count(&self) -> u32
        ensures { result ≡ length self.now.wires }
    {
        self.wires.len() as u32
    }

    /// How many nodes there are.
    pub fn node_count(&self) -> u32
        ensures { result ≡ length self.now.nodes }
    {
        self.nodes.len() as u32
    }

    /// The wire of this number, or `None` past the list.
    pub fn wire(&self, n: u32) -> Option<&Wire>
        ensures { option_map (λ w. wire_of w.now) result ≡ slice_get self.now.wires n }
    {
        self.wires.get(n as usize)
    }

    /// The node of this number, or `None` past the list.
    pub fn node(&self, n: u32) -> Option<Node>
        ensures { result ≡ slice_get self.now.nodes n }
    {
        self.nodes.get(n as usize).copied()
    }

    /// The least node that stands above the wire: `None` where the number is past the list or no node stands there.
    pub fn above(&self, wire: u32) -> Option<u32>
        ensures { result ≡ number_of (node_above self.now wire) }
    {
        entry(&self.above, wire)
    }

    /// The least node that stands below the wire: `None` where the number is past the list or no node stands there.
    pub fn below(&self, wire: u32) -> Option<u32>
        ensures { result ≡ number_of (node_below self.now wire) }
    {
        entry(&self.below, wire)
    }

    /// An equal net.
    ///
    /// # Errors
    ///
    /// `AllocError` where there is no memory for it.
    pub fn copy(&self, alloc: Global) -> Result<Net, AllocError>
        ensures { IfOk result (λ n. n ≡ self.now) }
    {
        let wires = copy_wires(alloc, &self.wires)?;
        let nodes = Vec::from_slice(alloc, &self.nodes)?;
        Net::from_parts(alloc, wires, nodes)
    }

    /// Gives the node of this number another number, if it is a number's. Else nothing changes. It takes the same time for every net.
    pub fn set_number(&mut self, node: u32, value: u64)
        ensures { self.new ≡ with_number self.old node value }
    {
        set_number(&mut self.nodes, node as usize, value);
    }

    /// Whether both nets have equal wires and equal nodes, in one order.
    pub fn same(&self, other: &Net) -> bool
        ensures { IsTrue result ↔ (self.now ≡ other.now) }
    {
        same_wires(&self.wires, &other.wires) && same_nodes(&self.nodes, &other.nodes)
    }
}

/// The node of a wire in an index; none for a wire past its end.
fn entry(index: &[Option<u32>], wire: u32) -> Option<u32>
    ensures { result ≡ entry_at index.now wire }
{
    match index.get(wire as usize) {
        Some(n) => *n,
        None => None,
    }
}

/// Gives the node at this place another number, if it is a number's and there is one.
fn set_number(nodes: &mut Vec<Node>, at: usize, value: u64)
    ensures { nodes.new.items ≡ set_at at value nodes.old.items }
{
    if at < nodes.len() {
        if let Node::Const { wire, .. } = nodes[at] {
            nodes[at] = Node::Const { value, wire };
        }
    }
}
