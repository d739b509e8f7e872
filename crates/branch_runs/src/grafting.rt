//! A branch that is put into the machine that its token is live in.

ghost use Rattle.std.specs.Prelude.{◌≡◌, ◌≤◌, ◌↔◌, Some, IfOk, OnErr, IsTrue, length};
ghost use Rattle.std.specs.FinMap.{get};
ghost use Rattle.std.specs.Option.{MatchOption};
ghost use Rattle.pcf_values.specs.Most.{most_budget};
ghost use Rattle.move_rules.specs.Views.{token_of};
ghost use Rattle.interleave_laws.specs.Runs.{Runs};
ghost use Rattle.interleave_laws.specs.MapRuns.{IsReachedWithin};
ghost use Rattle.branch_runs.specs.Branching.{Taken};

use crate::{Branch, OnNet};
use branch_laws::law_branch_maps;
use interleave_core::{Core, Tickets};
use interleave_laws::law_maps;
use move_rules::Token;
use std::alloc::AllocError;

/// Whether the ticket's token is this one. Takes no memory.
fn has(core: &Core, ticket: u32, token: &Token) -> bool
    ensures { IsTrue result ↔ (get core.now.tokens ticket ≡ Some (token_of token.now)) }
{
    match core.token(ticket) {
        Some(kept) => kept.same(token),
        None => false,
    }
}

/// Puts a branch into a machine of the net that `N` names, in the place of a ticket, where the ticket's token is the one that the branch
/// began with: then as many moves are made as the branch has, and its own tickets are answered, which `name_of` names. Where the ticket
/// has another token or none, it answers `None`, and all stays.
///
/// It takes steps and memory for each of the branch's tokens and entries, and none for its moves.
///
/// # Errors
///
/// It runs out of memory; the machine is as it was, and the branch is dropped.
pub fn graft<N: OnNet>(
    core: &mut Core,
    ticket: u32,
    branch: Branch<N>,
) -> Result<Option<Tickets>, AllocError>
    requires runs { Runs N.net }
    requires reached { IsReachedWithin N.net most_budget core.old }
    requires few { length branch.log ≤ most_budget }
    ensures taken { IfOk result (λ r. MatchOption r ((get core.old.tokens ticket ≡ Some branch.before → ⊥) × (core.new ≡ core.old))
        (λ tickets. (get core.old.tokens ticket ≡ Some branch.before) × Taken N.net core.old ticket branch core.new tickets)) }
    ensures err { OnErr result (core.new ≡ core.old) }
{
    law_branch_maps();
    law_maps();
    if !has(core, ticket, branch.before()) {
        return Ok(None);
    }
    let (log, after) = branch.into_parts();
    core.graft(ticket, after)?;
    Ok(Some(log))
}
