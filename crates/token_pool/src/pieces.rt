//! What a worker is handed.

ghost use Rattle.std.specs.Prelude.{◌≡◌, IfOk, OnErr};
ghost use Rattle.token_pool.specs.declared.entries.Held.{Held};
ghost use Rattle.interleave_laws.specs.Tickets.{IsLive};
ghost use Rattle.token_pool.specs.Pieces.{TellsLive, IsPieceOf, Hands};
ghost use Rattle.token_pool.specs.declared.entries.Reply.TheVariants.{Token as TellsToken};

use crate::{Held, Reply};
use interleave_core::Core;
use move_rules::Token;
use std::alloc::AllocError;

/// A ticket with its token, and the number of moves that may be walked from it.
#[derive(Drop)]
pub struct Piece {
    /// The token's number.
    pub ticket: u32,
    /// The token, in memory of the piece's own.
    pub token: Token,
    /// How many moves may be booked of it at once: of its own 1 to 64, and more where what it is given for is a branch.
    pub allowance: u32,
}

/// What a worker gets that asks for work: a piece, which it holds from now on, or why there is none.
#[derive(Drop)]
pub enum Taken {
    /// A piece, which the worker holds from now on.
    Token(Piece),
    /// No live token is free.
    Idle,
    /// A token is free, and the whole budget is made or set aside.
    Reserved,
    /// There is an answer, or the whole budget is made and nothing is held.
    Ended,
    /// The pool was stopped.
    Stopped,
}

/// The token of a live ticket, in memory of its own.
fn piece_of(core: &Core, held: Held) -> Result<Piece, AllocError>
    requires { IsLive core.now held.ticket }
    ensures { IfOk result (IsPieceOf core.now held) }
{
    match core.token(held.ticket) {
        Some(token) => Ok(Piece {
            ticket: held.ticket,
            token: token.copy()?,
            allowance: held.allowance,
        }),
        None => unreachable!(),
    }
}

/// Hands a worker what it is told.
pub(crate) fn hand(core: &Core, told: Reply) -> Result<Taken, AllocError>
    requires { TellsLive core.now told }
    ensures handed { IfOk result (Hands core.now told) }
    ensures ample { OnErr result ((h : Held) × (told ≡ TellsToken h)) }
{
    match told {
        Reply::Stopped => Ok(Taken::Stopped),
        Reply::Token(held) => Ok(Taken::Token(piece_of(core, held)?)),
        Reply::Ended => Ok(Taken::Ended),
        Reply::Idle => Ok(Taken::Idle),
        Reply::Reserved => Ok(Taken::Reserved),
    }
}
