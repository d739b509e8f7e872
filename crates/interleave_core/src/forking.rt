//! Forks.

ghost use Rattle.std.specs.Prelude.{[], ◌≡◌, None, OnOk, OnErr, IfOk};
ghost use Rattle.std.specs.FinMap.{get, insert};
ghost use Rattle.token_stacks.specs.Signatures.{Boxes};
ghost use Rattle.fork_join.specs.Entries.{pending};
ghost use Rattle.move_rules.specs.Places.{up, ask};
ghost use Rattle.move_rules.specs.Views.{token_of};
ghost use Rattle.interleave_core.specs.Forking.{HasBoxes, Copies, ForksTo};

use crate::live::LiveTokens;
use fork_join::JoinTable;
use move_rules::{Kind, Token};
use std::alloc::AllocError;
use token_stacks::BoxStack;

/// The question at an operand's wire, of a token with an empty work stack, and its box stack.
fn question(token: &Token, wire: u32) -> Result<(Token, BoxStack), AllocError>
    requires { token.now.stacks.work ≡ [] }
    ensures asks { IfOk result (λ r. token_of r.0 ≡ ask (up wire [] token.now.stacks.boxes)) }
    ensures boxes { IfOk result (λ r. r.1 ≡ token.now.stacks.boxes) }
{
    let stacks = token.stacks.copy()?;
    let boxes = token.stacks.boxes().copy()?;
    Ok((
        Token {
            wire,
            up: true,
            kind: Kind::Ask,
            stacks,
        },
        boxes,
    ))
}

/// The same of the token of a ticket.
fn right_question(live: &LiveTokens, ticket: u32, b: u32) -> Result<(Token, BoxStack), AllocError>
    requires { (t : Boxes) × HasBoxes live.now ticket t }
    ensures { IfOk result (λ r. Copies live.now ticket b (token_of r.0) r.1) }
{
    match live.get(ticket) {
        Some(token) => question(token, b),
        None => unreachable!(),
    }
}

/// Gives a new ticket its token, and opens an entry. After want of memory all is as before.
#[tactic(auto, using(crate::proofs::Forked::taken_back))]
fn open(
    live: &mut LiveTokens,
    joins: &mut JoinTable,
    next: u32,
    token: Token,
    at: u32,
    boxes: BoxStack,
) -> Result<(), AllocError>
    requires fresh { get live.old next ≡ None }
    requires closed { get joins.old (at, boxes) ≡ None }
    ensures token { OnOk result (live.new ≡ insert live.old next (token_of token)) }
    ensures entry { OnOk result (joins.new ≡ insert joins.old (at, boxes) pending) }
    ensures tokens_stay { OnErr result (live.new ≡ live.old) }
    ensures entries_stay { OnErr result (joins.new ≡ joins.old) }
{
    live.put(next, token)?;
    match joins.begin(at, boxes) {
        Ok(()) => Ok(()),
        Err(e) => {
            live.take(next);
            Err(e)
        }
    }
}

/// Forks the token of a ticket at a node to two operands: the left question keeps the ticket, the right one gets the next, and the
/// entry is opened. Only the right question and the entry take a copy of the box stack. After want of memory all is as before.
pub(crate) fn fork(
    live: &mut LiveTokens,
    joins: &mut JoinTable,
    ticket: u32,
    next: u32,
    at: u32,
    a: u32,
    b: u32,
) -> Result<(), AllocError>
    requires stands { (t : Boxes) × HasBoxes live.old ticket t × (get joins.old (at, t) ≡ None) }
    requires fresh { get live.old next ≡ None }
    ensures ok { OnOk result (ForksTo live.old live.new joins.old joins.new ticket next at a b) }
    ensures tokens_stay { OnErr result (live.new ≡ live.old) }
    ensures entries_stay { OnErr result (joins.new ≡ joins.old) }
{
    let (right, boxes) = right_question(live, ticket, b)?;
    open(live, joins, next, right, at, boxes)?;
    live.send(ticket, a, true, Kind::Ask);
    Ok(())
}
