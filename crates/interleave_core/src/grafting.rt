//! A state that is put into another one, in a ticket's place.

ghost use Rattle.std.specs.Prelude.{◌≡◌, ◌+◌, ◌<◌, ◌≤◌, ◌^◌, ℕ, None, OnOk, OnErr, IsSome};
ghost use Rattle.std.specs.Option.{option_map, option_or};
ghost use Rattle.std.specs.FinMap.{get, len};
ghost use Rattle.token_stacks.specs.Signatures.{Boxes};
ghost use Rattle.move_rules.specs.Views.{token_of};
ghost use Rattle.interleave_core.specs.Parts.{state_of};
ghost use Rattle.interleave_core.specs.Grafting.{given, IsLow, AllFit, Placed};
ghost use Rattle.interleave_core.specs.Grafts.{Grafts};

use crate::live::LiveTokens;
use crate::parts::Parts;
use fork_join::JoinTable;
use move_rules::Token;
use std::alloc::AllocError;

/// Takes out what stands at the tickets from `next` on. Takes no memory.
fn drop_from(live: &mut LiveTokens, next: u32)
    requires { 1 ≤ next }
    ensures below { (q : ℕ) → q < next → get live.new q ≡ get live.old q }
    ensures from { (q : ℕ) → next ≤ q → get live.new q ≡ None }
{
    while let Some(ticket) = live.next(next - 1) {
        live.take(ticket);
    }
}

/// Gives the tokens of tickets from 1 on the tickets from `next` on. Where memory runs out all is as before.
fn put_new(live: &mut LiveTokens, theirs: LiveTokens, next: u32) -> Result<(), AllocError>
    requires some { 1 ≤ next }
    requires low { IsLow live.old next }
    requires rest { get theirs 0 ≡ None }
    requires fit { AllFit theirs next }
    ensures ok { OnOk result (Placed live.old theirs next live.new) }
    ensures count { OnOk result (len live.new ≤ len live.old + len theirs) }
    ensures err { OnErr result (live.new ≡ live.old) }
{
    let mut left = theirs;
    while let Some(ticket) = left.least() {
        match left.take(ticket) {
            Some(token) => match live.put(next + (ticket - 1), token) {
                Ok(()) => {}
                Err(e) => {
                    drop_from(live, next);
                    return Err(e);
                }
            },
            None => unreachable!(),
        }
    }
    Ok(())
}

/// Puts tokens and entries in. Where memory runs out all is as before.
fn put_parts(
    live: &mut LiveTokens,
    joins: &mut JoinTable,
    theirs: LiveTokens,
    entries: &JoinTable,
    next: u32,
) -> Result<(), AllocError>
    requires some { 1 ≤ next }
    requires low { IsLow live.old next }
    requires rest { get theirs 0 ≡ None }
    requires fit { AllFit theirs next }
    requires apart { (n : ℕ) (t : Boxes) → IsSome (get entries.now (n, t)) → get joins.old (n, t) ≡ None }
    ensures ok { OnOk result (Placed live.old theirs next live.new) }
    ensures count { OnOk result (len live.new ≤ len live.old + len theirs) }
    ensures joined { OnOk result ((n : ℕ) (t : Boxes) → get joins.new (n, t) ≡ option_or (get entries.now (n, t)) (get joins.old (n, t))) }
    ensures tokens_stay { OnErr result (live.new ≡ live.old) }
    ensures entries_stay { OnErr result (joins.new ≡ joins.old) }
{
    put_new(live, theirs, next)?;
    match joins.add_all(entries) {
        Ok(()) => Ok(()),
        Err(e) => {
            drop_from(live, next);
            Err(e)
        }
    }
}

/// Puts a token in the place of the one that a ticket has, or ends the ticket. Takes no memory.
fn put_first(live: &mut LiveTokens, ticket: u32, first: Option<Token>)
    requires { IsSome (get live.old ticket) }
    ensures { live.new ≡ given live.old ticket (option_map token_of first) }
{
    match first {
        Some(token) => live.replace(ticket, token),
        None => {
            live.take(ticket);
        }
    }
}

/// Grafts a state into another one in a ticket's place. Where memory runs out all is as before.
pub(crate) fn graft_in(parts: &mut Parts, ticket: u32, branch: Parts) -> Result<(), AllocError>
    requires live { IsSome (get parts.old.live ticket) }
    requires low { IsLow parts.old.live parts.old.next }
    requires branch_low { IsLow branch.live branch.next }
    requires begun { 1 ≤ branch.next }
    requires room { parts.old.next + branch.next ≤ 2 ^ 32 }
    requires apart { (n : ℕ) (t : Boxes) → IsSome (get branch.joins (n, t)) → get parts.old.joins (n, t) ≡ None }
    requires few { len parts.old.live ≤ parts.old.next }
    requires branch_few { len branch.live ≤ branch.next }
    ensures ok { OnOk result (Grafts (state_of parts.old) ticket (state_of branch) (state_of parts.new)) }
    ensures few { len parts.new.live ≤ parts.new.next }
    ensures err { OnErr result (state_of parts.new ≡ state_of parts.old) }
{
    let Parts {
        live: mut theirs,
        joins: entries,
        next: tickets,
        answer: _,
    } = branch;
    let first = theirs.take(0);
    let next = parts.next;
    put_parts(&mut parts.live, &mut parts.joins, theirs, &entries, next)?;
    put_first(&mut parts.live, ticket, first);
    parts.next = next + (tickets - 1);
    Ok(())
}
