//! What a device did, as clauses see it.

ghost use Rattle.std.specs.Prelude.{◌≡◌};
ghost use Rattle.std.specs.Borrow.{ftrue};
ghost use Rattle.goi_world.specs.Outside.{Turns, no_turns};

use crate::Failed;
use std::marker::Model;

/// One read or one write, with its answer.
#[derive(Clone, Copy, Drop)]
pub(crate) enum Turn<'a> {
    /// Of this file, from this offset on, with so much room; and the buffer as it stands then.
    Read(&'a str, u64, usize, Result<usize, Failed>, &'a [u8]),
    /// Of this piece.
    Wrote(&'a [u8], Result<usize, Failed>),
}

/// The reads and writes that were made. It has no bytes: clauses alone read it.
#[derive(Drop)]
pub(crate) struct Past {
    pub(crate) ghost turns: { Turns },
}

impl Model for Past {
    ghost also_owns = { λ _. ftrue };
}

impl Past {
    ghost use Rattle.goi_world.specs.Turns.{with_turn};

    /// Nothing was done.
    pub(crate) fn none() -> Past
        ensures { result.turns ≡ no_turns }
    {
        Past {}
    }

    /// One turn more.
    pub(crate) fn with(&self, _turn: &Turn<'_>) -> Past
        ensures { result.turns ≡ with_turn self.now.turns _turn.now }
    {
        Past {}
    }
}
