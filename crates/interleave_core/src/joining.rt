//! Joins.

ghost use Rattle.std.specs.Prelude.{◌≡◌};
ghost use Rattle.std.specs.FinMap.{get};
ghost use Rattle.token_stacks.specs.Signatures.{Boxes};
ghost use Rattle.fork_join.specs.Arrivals.{IsOpenFor, arrival, after_arrival};
ghost use Rattle.interleave_core.specs.Forking.{HasBoxes};
ghost use Rattle.interleave_core.specs.Joining.{both_of, joined_name, JoinsAt};

use crate::Stepped;
use crate::live::LiveTokens;
use fork_join::{Arrived, JoinTable};
use move_rules::Kind;
use pcf_values::{Operator, Side, Val};

/// The left and the right value, where this side has v and the other side has w.
fn both(side: Side, v: Val, w: Val) -> (Val, Val)
    ensures { result ≡ both_of side v w }
{
    match side {
        Side::Left => (v, w),
        Side::Right => (w, v),
    }
}

/// What the entry makes of the ticket's answer.
fn arrive(
    live: &LiveTokens,
    joins: &mut JoinTable,
    ticket: u32,
    at: u32,
    side: Side,
    v: Val,
) -> Arrived
    requires stands { (t : Boxes) × HasBoxes live.now ticket t × IsOpenFor (get joins.old (at, t)) side }
    ensures { (t : Boxes) × HasBoxes live.now ticket t × (result ≡ arrival (get joins.old (at, t))) ×
        (joins.new ≡ after_arrival joins.old (at, t) side v) }
{
    match live.get(ticket) {
        Some(token) => joins.arrive(at, token.stacks.boxes(), side, v),
        None => unreachable!(),
    }
}

/// Brings the answer of a ticket to its entry: the first is kept, and its ticket ends; the second goes on down the wire c with what both
/// come to. Takes no memory.
pub(crate) fn join(
    live: &mut LiveTokens,
    joins: &mut JoinTable,
    ticket: u32,
    at: u32,
    operator: Operator,
    side: Side,
    v: Val,
    c: u32,
) -> Stepped
    requires stands { (t : Boxes) × HasBoxes live.old ticket t × IsOpenFor (get joins.old (at, t)) side }
    ensures { (t : Boxes) × HasBoxes live.old ticket t × JoinsAt live.old live.new joins.old joins.new ticket at operator side v c t ×
        (result ≡ joined_name (arrival (get joins.old (at, t))) side v) }
{
    match arrive(live, joins, ticket, at, side, v) {
        Arrived::First => {
            live.take(ticket);
            Stepped::Kept
        }
        Arrived::Both(w) => {
            let (left, right) = both(side, v, w);
            live.send(ticket, c, false, Kind::Ans(left.by(operator, right)));
            Stepped::Joined(left, right)
        }
    }
}
