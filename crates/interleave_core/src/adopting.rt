//! Walks that were made elsewhere.
//!
//! No command goes by `adopt`: it is the plain form of what `graft` does with a branch, kept as the simplest statement of the protocol.

ghost use Rattle.std.specs.Prelude.{◌≡◌, ◌↔◌, Some, IsSome, IfSome, IfNone, IsTrue, length};
ghost use Rattle.std.specs.List.{All};
ghost use Rattle.std.specs.FinMap.{get, insert};
ghost use Rattle.move_rules.specs.Views.{token_of};
ghost use Rattle.move_rules.specs.Walks.{Stands, Reached};
ghost use Rattle.interleave_core.specs.Adopting.{AcceptsIn};

use crate::live::LiveTokens;
use move_rules::{Moved, Seen, Token};
use net_build::Net;

/// Whether the node is the net's node of its number.
fn is_node(net: &Net, seen: Seen) -> bool
    ensures { IsTrue result ↔ Stands net.now seen }
{
    match net.node(seen.at) {
        Some(node) => node.same(seen.node),
        None => false,
    }
}

/// Whether each node of the trail is the net's node of its number.
fn stands(net: &Net, trail: &[Seen]) -> bool
    ensures { IsTrue result ↔ All (Stands net.now) trail.now }
{
    for (i, seen) in trail.iter().enumerate() {
        if !is_node(net, *seen) {
            return false;
        }
    }
    true
}

/// Whether the ticket's token is this one.
fn has(live: &LiveTokens, ticket: u32, token: &Token) -> bool
    ensures { IsTrue result ↔ (get live.now ticket ≡ Some (token_of token.now)) }
{
    match live.get(ticket) {
        Some(kept) => kept.same(token),
        None => false,
    }
}

/// Whether a walk is one of the ticket's token on this net, with at least one move and at most so many.
fn accepts(net: &Net, live: &LiveTokens, ticket: u32, moved: &Moved, most: u32) -> bool
    ensures { IsTrue result ↔ AcceptsIn net.now live.now ticket moved.now most }
{
    let trail = moved.trail();
    has(live, ticket, moved.before())
        && !trail.is_empty()
        && trail.len() <= most as usize
        && stands(net, trail)
}

/// Takes over a walk, where it may, and answers how many moves it has; otherwise all stays. Takes no memory.
pub(crate) fn adopt_in(
    live: &mut LiveTokens,
    net: &Net,
    ticket: u32,
    moved: Moved,
    most: u32,
) -> Option<u32>
    ensures accepted { IsSome result ↔ AcceptsIn net.now live.old ticket moved most }
    ensures reached { Reached moved }
    ensures count { IfSome result (λ n. n ≡ length moved.trail) }
    ensures after { IfSome result (λ n. live.new ≡ insert live.old ticket (token_of moved.after)) }
    ensures stays { IfNone result (live.new ≡ live.old) }
{
    let count = moved.trail().len();
    if !accepts(net, live, ticket, &moved, most) {
        return None;
    }
    live.replace(ticket, moved.into_after());
    Some(count as u32)
}
