//! What is built of a net so far.

ghost use Rattle.std.specs.Prelude.{◌≡◌, ◌<◌, ◌^◌, ◌∷◌, [], length, OnOk};
ghost use Rattle.net_build.specs.Views.{wire_of};
ghost use Rattle.pcf_values.specs.Views.{ty_of};
ghost use Rattle.net_build.specs.Building.{Grows, wire_type};

use crate::{Node, Wire};
use pcf_values::Ty;
use std::alloc::AllocError;

/// The wires and nodes so far, and the types of the binders around, the outermost first.
#[derive(Drop)]
pub(crate) struct Parts {
    pub(crate) wires: Vec<Wire>,
    pub(crate) nodes: Vec<Node>,
    pub(crate) context: Vec<Ty>,
}

/// A variable wire that no node stands below yet, and its binder's place in the context.
#[derive(Clone, Copy, Drop)]
pub(crate) struct Loose {
    pub(crate) binder: usize,
    pub(crate) wire: u32,
}

/// What a term gives: its value wire, and the loose wires of its free variables, the innermost binder last.
#[derive(Drop)]
pub(crate) struct Placed {
    pub(crate) out: u32,
    pub(crate) free: Vec<Loose>,
}

impl Parts {
    /// The number of the next wire.
    pub(crate) fn next(&self) -> u32
        requires { length self.now.wires.items < 2 ^ 32 }
        ensures { result ≡ length self.now.wires.items }
    {
        self.wires.len() as u32
    }

    /// The type of a wire.
    pub(crate) fn ty(&self, wire: u32) -> &Ty
        requires { wire < length self.now.wires.items }
        ensures { ty_of result.now ≡ wire_type self.now wire }
    {
        &self.wires[wire as usize].ty
    }

    /// A wire and a node at the ends of the lists.
    pub(crate) fn add(&mut self, wire: Wire, node: Node) -> Result<(), AllocError>
        ensures { OnOk result (Grows self.old self.new (wire_of wire ∷ []) (node ∷ [])) }
    {
        self.wires.push(wire)?;
        self.nodes.push(node)?;
        Ok(())
    }
}
