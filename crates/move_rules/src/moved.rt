//! Walks of one token.
//!
//! No command goes by `Moved`, `walk` and `plain_move`: they are the plain form of what branches do, kept as the simplest statement of the
//! protocol.

ghost use Rattle.std.specs.Prelude.{◌≡◌, [], IfOk};
ghost use Rattle.move_rules.specs.Moves.{move};
ghost use Rattle.move_rules.specs.Views.{token_of};
ghost use Rattle.move_rules.specs.Walks.{Reached, Walked, MadeIfSolo};

use crate::{Seen, Token, solo_move};
use net_build::Net;
use std::alloc::{AllocError, Global};
use std::marker::Model;

/// A token before and after a walk, with the trail of nodes that it went through: the one is reached from the other by one solo move
/// through each node of the trail, in turn, by that node's own rules. Which net the nodes are of is for the reader to see.
#[derive(Drop)]
pub struct Moved {
    before: Token,
    after: Token,
    trail: Vec<Seen>,
}

impl Model for Moved {
    ghost use Rattle.move_rules.specs.Walks.{Passage, Reached};
    ghost use Rattle.move_rules.specs.Codes.{passage_code};

    ghost Value = { Passage };

    ghost coded = { passage_code };

    ghost view = { λ m. record { before = m.before; after = m.after; trail = m.trail.items } };

    ghost invariant = { λ m. Reached (record { before = m.before; after = m.after; trail = m.trail.items }) };
}

impl Moved {
    /// The token that makes no move.
    ///
    /// # Errors
    ///
    /// Only where memory runs out.
    pub fn still(alloc: Global, token: Token) -> Result<Moved, AllocError>
        ensures before { IfOk result (λ m. m.before ≡ token) }
        ensures after { IfOk result (λ m. m.after ≡ token) }
        ensures trail { IfOk result (λ m. m.trail ≡ []) }
    {
        let before = token.copy()?;
        Ok(Moved {
            before,
            after: token,
            trail: Vec::new(alloc),
        })
    }

    /// The token before the walk.
    pub fn before(&self) -> &Token
        ensures { result.now ≡ self.now.before }
    {
        &self.before
    }

    /// The token after the walk.
    pub fn after(&self) -> &Token
        ensures { result.now ≡ self.now.after }
    {
        &self.after
    }

    /// The nodes that the token went through, in turn.
    pub fn trail(&self) -> &[Seen]
        ensures trail { result.now ≡ self.now.trail }
        ensures reached { Reached self.now }
    {
        self.trail.as_slice()
    }

    /// Hands out the token after the walk. Takes no memory.
    pub fn into_after(self) -> Token
        ensures { result ≡ self.after }
    {
        let Moved { after, .. } = self;
        after
    }
}

/// For so many nodes of a trail there is room at once.
const FIRST_ROOM: u32 = 1_024;

/// Walks the token on this net by the table of moves, until `most` moves are made or the next is no solo move: a fork, a join, the
/// answer, or none. It holds for every token of every net. Memory is taken once for `before`, at once for a trail of `most` nodes, but
/// for 1,024 at most, and then for what the stacks and a longer trail grow by.
///
/// # Errors
///
/// Only where memory runs out.
pub fn walk(alloc: Global, net: &Net, token: Token, most: u32) -> Result<Moved, AllocError>
    ensures before { IfOk result (λ m. m.before ≡ token) }
    ensures walked { IfOk result (Walked net.now most) }
{
    let before = token.copy()?;
    let mut after = token;
    let trail = follow(alloc, net, &mut after, most)?;
    Ok(Moved {
        before,
        after,
        trail,
    })
}

/// Makes the token's next moves in place, until `most` are made or the next is no solo move, and answers their nodes.
fn follow(alloc: Global, net: &Net, token: &mut Token, most: u32) -> Result<Vec<Seen>, AllocError>
    ensures reached { IfOk result (λ v. Reached (record { before = token.old; after = token.new; trail = v.items })) }
    ensures walked { IfOk result (λ v. Walked net.now most (record { before = token.old; after = token.new; trail = v.items })) }
{
    let mut trail = Vec::with_capacity(alloc, most.min(FIRST_ROOM) as usize)?;
    let mut left = most;
    while left > 0 {
        match solo_move(net, token)? {
            Some(seen) => trail.push(seen)?,
            None => break,
        }
        left -= 1;
    }
    Ok(trail)
}

/// Makes the token's next move on this net if it is a solo move, by a plain rule or by that of a constant, `succ`, `pred` or a test, and
/// none otherwise: the trail is empty exactly when the next move is a fork, a join, the answer, or none. It holds for every token of
/// every net.
///
/// # Errors
///
/// Only where memory runs out.
pub fn plain_move(alloc: Global, net: &Net, token: Token) -> Result<Moved, AllocError>
    ensures before { IfOk result (λ m. m.before ≡ token) }
    ensures moved { IfOk result (λ m. MadeIfSolo net.now m (move net.now (token_of token))) }
{
    walk(alloc, net, token, 1)
}
