//! Runs that a table tells move by move.
//!
//! A row is `TICKET NAME TOKEN`: the ticket moves, the step has this name, and the ticket's token is then this one, or there is none where
//! no token is written. In a row `TICKET stands TOKEN` nothing moves, and in a row `live TICKETS` these are the live tickets.

ghost use Rattle.std.specs.Prelude.{◌+◌, ◌<◌, OnOk};
ghost use Rattle.interleave_laws.specs.Runs.{Runs};
ghost use Rattle.interleave_laws.specs.MapRuns.{IsReachedWithin};

use crate::texts::Written;
use crate::tickets::{are_live, go};
use interleave_core::{Core, Stepped};
use net_build::Net;
use pcf_values::Val;
use std::alloc::{AllocError, Global};
use testing_gates::{cut, number};

/// More moves than any run of the tests has.
pub(crate) const MOST_MOVES: u32 = 1000;

/// Whether these are the two numbers of a text, which stand there with a comma between them.
fn are(left: Val, right: Val, text: &str) -> bool {
    let (a, b) = cut(text, ',');
    left == Val::Number(number(a) as u64) && right == Val::Number(number(b) as u64)
}

/// Whether the step has this name: `forked:` has its new ticket behind it, `joined:` both operands' values, and `answered:` the answer.
fn is_named(stepped: Stepped, name: &str) -> bool {
    let (word, told) = cut(name, ':');
    match stepped {
        Stepped::Went => word == "went",
        Stepped::Forked(ticket) => word == "forked" && ticket == number(told),
        Stepped::Kept => word == "kept",
        Stepped::Joined(left, right) => word == "joined" && are(left, right, told),
        Stepped::Answered(v) => word == "answered" && v == Val::Number(number(told) as u64),
    }
}

/// Whether the ticket has this token, or none where the text is empty.
pub(crate) fn has(alloc: Global, core: &Core, ticket: u32, text: &str) -> Result<bool, AllocError> {
    match core.token(ticket) {
        Some(kept) => Ok(!text.is_empty() && Written::token(text).is(alloc, kept)?),
        None => Ok(text.is_empty()),
    }
}

/// Whether a row in which the ticket moves is so.
fn moves_so(
    alloc: Global,
    net: &Net,
    core: &mut Core,
    moves: u32,
    ticket: u32,
    row: &str,
) -> Result<bool, AllocError>
    requires runs { Runs net.now }
    requires short { moves < 1000 }
    requires reached { IsReachedWithin net.now (moves + 1) core.old }
    ensures { OnOk result (IsReachedWithin net.now (moves + 2) core.new) }
{
    let (name, text) = cut(row, ' ');
    let stepped = go(net, core, moves, ticket)?;
    Ok(is_named(stepped, name) && has(alloc, core, ticket, text)?)
}

/// Whether a row in which nothing moves is so. Another row is answered with `None`.
fn stands_so(alloc: Global, core: &Core, row: &str) -> Result<Option<bool>, AllocError> {
    let (first, rest) = cut(row, ' ');
    let (name, text) = cut(rest, ' ');
    if first == "live" {
        Ok(Some(are_live(core, rest)))
    } else if name == "stands" {
        Ok(Some(has(alloc, core, number(first), text)?))
    } else {
        Ok(None)
    }
}

/// Whether all rows are so, in turn.
fn are_so(alloc: Global, net: &Net, core: &mut Core, rows: &str) -> Result<bool, AllocError>
    requires runs { Runs net.now }
    requires reached { IsReachedWithin net.now 1 core.old }
{
    let mut moves = 0;
    for row in rows.lines() {
        match stands_so(alloc, core, row)? {
            Some(true) => {}
            Some(false) => return Ok(false),
            None => {
                let (ticket, rest) = cut(row, ' ');
                if moves == MOST_MOVES
                    || !moves_so(alloc, net, core, moves, number(ticket), rest)?
                {
                    return Ok(false);
                }
                moves += 1;
            }
        }
    }
    Ok(true)
}

/// Plays a run by its table, and answers its last state, or none where a row isn't so.
pub(crate) fn played(alloc: Global, net: &Net, rows: &str) -> Result<Option<Core>, AllocError>
    requires { Runs net.now }
{
    let mut core = Core::start(alloc, net)?;
    let so = are_so(alloc, net, &mut core, rows);
    if so == Ok(true) {
        return Ok(Some(core));
    }
    drop(core);
    so.map(|_| None)
}
