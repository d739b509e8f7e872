//! Tokens.

ghost use Rattle.std.specs.Prelude.{◌≡◌, ◌↔◌, IfOk, IsTrue};

use net_build::Node;
use pcf_values::Val;
use std::alloc::AllocError;
use token_stacks::Stacks;

/// A question, or an answer with its value.
#[derive(Clone, Copy, PartialEq, Eq)]
pub enum Kind {
    /// A question: which number does what lies ahead have?
    Ask,
    /// An answer, with its value.
    Ans(Val),
}

/// A token on its way: it goes up or down a wire, and carries both stacks.
#[derive(Drop)]
pub struct Token {
    /// The number of its wire.
    pub wire: u32,
    /// Whether it goes up that wire; else it goes down.
    pub up: bool,
    /// What it is.
    pub kind: Kind,
    /// What it carries.
    pub stacks: Stacks,
}

/// A node with its number.
#[derive(Clone, Copy, PartialEq, Eq)]
pub struct Seen {
    /// The number.
    pub at: u32,
    /// The node.
    pub node: Node,
}

impl Token {
    /// An equal token, in memory of its own.
    ///
    /// # Errors
    ///
    /// Only where memory runs out.
    pub fn copy(&self) -> Result<Token, AllocError>
        ensures { IfOk result (λ k. k ≡ self.now) }
    {
        Ok(Token {
            wire: self.wire,
            up: self.up,
            kind: self.kind,
            stacks: self.stacks.copy()?,
        })
    }

    /// Whether both tokens are of one kind at one place, with the same stacks. Takes no memory.
    pub fn same(&self, other: &Token) -> bool
        ensures { IsTrue result ↔ (self.now ≡ other.now) }
    {
        self.wire == other.wire
            && self.up == other.up
            && self.kind == other.kind
            && self.stacks.same(&other.stacks)
    }
}
