//! The pool as the bench of several workers.
//!
//! No command goes this way: it is the plain form of what branches do, kept as the simplest statement of the protocol.

ghost use Rattle.std.specs.Prelude.{◌≡◌, IfOk, OnOk, OnErr};
ghost use Rattle.token_pool.specs.Benches.{MakesWalk, TurnFor, GivesTurn, TakesIn};
ghost use Rattle.interleave_laws.specs.Maps.{MapState};
ghost use Rattle.token_pool.specs.declared.entries.Reply.{Reply};
ghost use Rattle.token_pool.specs.Pieces.{Hands};
ghost use Rattle.token_pool.specs.Booking.{HoldsOther, halted};

use crate::{Piece, PoolState, Taken};
use gate_workers::{Bench, Turn};
use move_rules::{Moved, walk};
use net_build::Net;
use std::alloc::{AllocError, Global};

/// The turn for what a worker was handed.
fn turn_of(taken: Taken) -> Turn<Piece>
    ensures { (S : MapState) (told : Reply) → Hands S told taken → TurnFor S told result }
{
    match taken {
        Taken::Token(piece) => Turn::Piece(piece),
        Taken::Idle | Taken::Reserved => Turn::Pause,
        Taken::Ended | Taken::Stopped => Turn::Over,
    }
}

impl<'n> Bench for PoolState<'n> {
    type Piece = Piece;

    type Made = Moved;

    type Tool = Net;

    ghost makes = { MakesWalk };

    ghost gives = { GivesTurn };

    ghost takes_in = { TakesIn };

    ghost halts = { λ old new. new ≡ halted old };

    fn turn(&mut self, worker: u32) -> Result<Turn<Piece>, AllocError> {
        if !self.has_place(worker) {
            return Ok(Turn::Over);
        }
        Ok(turn_of(self.take(worker)?))
    }

    fn work(alloc: Global, tool: &Net, piece: Piece) -> Result<Moved, AllocError>
        ensures { IfOk result (λ made. MakesWalk tool.now piece made) }
    {
        walk(alloc, tool, piece.token, piece.allowance)
    }

    fn hand_in(&mut self, worker: u32, made: Moved) -> Result<(), AllocError>
        ensures ok { IfOk result (λ _. TakesIn self.old worker made self.new) }
        ensures err { OnErr result (self.new ≡ self.old) }
        ensures ample { OnErr result (HoldsOther self.old worker made) }
    {
        if self.has_place(worker) {
            self.book(worker, made)?;
        }
        Ok(())
    }

    fn stop(&mut self) {
        PoolState::stop(self);
    }

    fn spare(&self) -> u32 {
        self.spare_pieces()
    }
}
