//! A worker, and what it may do: ask while it has no piece, and make something of the piece that it has.
//!
//! Neither type may be let go, nor may what a worker is told. So what a worker brings is handed in before anything else, each piece that
//! it is given is worked, and a worker that was given none can't ask again.

ghost use Rattle.std.specs.Prelude.{◌≡◌, ◌+◌, ◌-◌, ◌^◌, min, None, IfSome, IfNone, IfOk, IfErr};
ghost use Rattle.gate_workers.specs.declared.turn.Turn.TheVariants.{Piece};
ghost use Rattle.gate_workers.specs.Working.{Given, TakenIn, GoesHome, Leaves, Brings};

use crate::desk::Brought;
use crate::hall::{Hall, attend};
use crate::{Bench, Gate, Turn};
use std::alloc::Global;
use std::sync::Wait;

/// A worker with no piece: its number, how often it has passed the gate, what it brings, and whether it looked for a piece in vain.
pub(crate) struct Idle<B: Bench> {
    number: u32,
    turns: u64,
    brought: Brought<B::Made>,
    tired: bool,
}

/// A worker with a piece.
pub(crate) struct Busy<B: Bench> {
    number: u32,
    turns: u64,
    piece: B::Piece,
}

/// What a worker is told at the desk, or nothing where the bench was stopped. It may not be let go, and nobody but the worker takes it
/// apart: so a piece reaches the worker that it was given to.
pub(crate) struct Due<P> {
    turn: Option<Turn<P>>,
}

impl<P> Due<P> {
    /// What is told.
    pub(crate) fn of(turn: Option<Turn<P>>) -> Due<P>
        ensures { result.turn ≡ turn }
    {
        Due { turn }
    }

    /// What is told, to be looked at.
    pub(crate) fn told(&self) -> &Option<Turn<P>>
        ensures { result.now ≡ self.now.turn }
    {
        &self.turn
    }
}

impl<B: Bench> Idle<B> {
    /// The worker of this number, before its first turn.
    pub(crate) fn new(number: u32) -> Idle<B>
        ensures number { result.number ≡ number }
        ensures turns { result.turns ≡ 0 }
        ensures brought { result.brought ≡ None }
    {
        Idle {
            number,
            turns: 0,
            brought: None,
            tired: false,
        }
    }

    /// One turn at the desk: a piece, or a pause after which it may ask again, or nothing any more.
    fn visit<R: Wait>(self, rt: &R, hall: &Hall<B>) -> Option<Result<Busy<B>, Idle<B>>>
        ensures same { IfSome result (λ r. IfOk r (λ b. (b.number ≡ self.number) × (b.turns ≡ self.turns))) }
        ensures given { IfSome result (λ r. IfOk r (λ b. Given B.gives b.number (Piece b.piece))) }
        ensures paused { IfSome result (λ r. IfErr r
            (λ i. (i.number ≡ self.number) × (i.turns ≡ self.turns) × (i.brought ≡ None))) }
        ensures taken_in { IfSome result (λ _. TakenIn B.takes_in self.number self.brought) }
        ensures home { IfNone result (Leaves B.takes_in B.gives B.halts self.number self.brought) }
    {
        let Idle {
            number,
            turns,
            brought,
            tired,
        } = self;
        let (Due { turn }, tired) = attend(rt, hall, number, brought, tired);
        match turn {
            Some(Turn::Piece(piece)) => Some(Ok(Busy {
                number,
                turns,
                piece,
            })),
            Some(Turn::Pause) => Some(Err(Idle {
                number,
                turns,
                brought: None,
                tired,
            })),
            Some(Turn::Over) | None => None,
        }
    }

    /// Asks again after each pause, until there is a piece; or there will be none any more.
    fn wait<R: Wait>(self, rt: &R, hall: &Hall<B>) -> Option<Busy<B>>
        ensures same { IfSome result (λ b. (b.number ≡ self.number) × (b.turns ≡ self.turns)) }
        ensures given { IfSome result (λ b. Given B.gives b.number (Piece b.piece)) }
        ensures home { IfNone result (GoesHome B.gives B.halts self.number) }
    {
        let mut idle = self;
        for _ in rt.forever() {
            match idle.visit(rt, hall)? {
                Ok(busy) => return Some(busy),
                Err(paused) => idle = paused,
            }
        }
        unreachable!()
    }

    /// Hands in what is brought, and waits for a piece; or there will be none any more.
    pub(crate) fn ask<R: Wait>(self, rt: &R, hall: &Hall<B>) -> Option<Busy<B>>
        ensures same { IfSome result (λ b. (b.number ≡ self.number) × (b.turns ≡ self.turns)) }
        ensures given { IfSome result (λ b. Given B.gives b.number (Piece b.piece)) }
        ensures taken_in { IfSome result (λ _. TakenIn B.takes_in self.number self.brought) }
        ensures home { IfNone result (Leaves B.takes_in B.gives B.halts self.number self.brought) }
    {
        match self.visit(rt, hall)? {
            Ok(busy) => Some(busy),
            Err(paused) => paused.wait(rt, hall),
        }
    }
}

impl<B: Bench> Busy<B> {
    /// Passes the gate, and works the piece.
    pub(crate) fn make<G: Gate>(self, alloc: Global, tool: &B::Tool, gate: &G) -> Idle<B>
        ensures number { result.number ≡ self.number }
        ensures turns { result.turns ≡ min (self.turns + 1) (2 ^ 64 - 1) }
        ensures passed { G.passes gate.now self.number self.turns }
        ensures made { Brings (B.makes tool.now self.piece) result.brought }
    {
        let Busy {
            number,
            turns,
            piece,
        } = self;
        gate.between(number, turns);
        Idle {
            number,
            turns: next_turn(turns),
            brought: Some(B::work(alloc, tool, piece)),
            tired: false,
        }
    }
}

/// The number of the turn after this one.
fn next_turn(turn: u64) -> u64
    ensures { result ≡ min (turn + 1) (2 ^ 64 - 1) }
{
    turn.saturating_add(1)
}
