//! The wires of a net.

ghost use Rattle.std.specs.Prelude.{◌≡◌, ◌↔◌, IfOk, IsTrue};
ghost use Rattle.net_build.specs.Views.{wire_of};

use pcf_values::Ty;
use std::alloc::{AllocError, Global};

/// What a wire carries.
#[derive(Clone, Copy, Debug, PartialEq, Eq)]
pub enum WireKind {
    /// The value of a term.
    Value,
    /// An argument in its box.
    Bang,
    /// The uses of a variable.
    Variable,
}

/// A wire of a net.
#[derive(Drop)]
pub struct Wire {
    /// What it carries.
    pub kind: WireKind,
    /// In how many boxes it stands.
    pub depth: u32,
    /// The type of what it carries.
    pub ty: Ty,
}

impl Wire {
    /// An equal wire.
    ///
    /// # Errors
    ///
    /// `AllocError` where there is no memory for its type.
    pub fn copy(&self, alloc: Global) -> Result<Wire, AllocError>
        ensures { IfOk result (λ w. wire_of w ≡ wire_of self.now) }
    {
        Ok(Wire {
            kind: self.kind,
            depth: self.depth,
            ty: self.ty.copy(alloc)?,
        })
    }

    /// Whether both have one kind, one depth and one type.
    pub fn same(&self, other: &Wire) -> bool
        ensures { IsTrue result ↔ (wire_of self.now ≡ wire_of other.now) }
    {
        self.kind == other.kind && self.depth == other.depth && self.ty.same(&other.ty)
    }
}
