//! One step of a ticket of a token that runs by itself, where no more is known of a join than what was forked here.

ghost use Rattle.std.specs.Prelude.{◌≡◌, ◌+◌, ◌<◌, ◌^◌, ◌↔◌, None, OnErr, IfOk, IsSome, IsTrue};
ghost use Rattle.std.specs.Bool.{MatchBool};
ghost use Rattle.std.specs.FinMap.{get};
ghost use Rattle.token_stacks.specs.Signatures.{Boxes};
ghost use Rattle.interleave_core.specs.Forking.{HasBoxes};
ghost use Rattle.interleave_core.specs.Parts.{state_of};
ghost use Rattle.interleave_core.specs.Roles.{StandsStill};
ghost use Rattle.interleave_core.specs.Owning.{OwnAble, StepsOwn, StandsForeign};

use crate::acting::{meet, split};
use crate::live::LiveTokens;
use crate::parts::Parts;
use crate::roles::{Role, met_at};
use fork_join::JoinTable;
use net_build::Net;
use std::alloc::AllocError;

/// Whether the table has an entry for a node and the ticket's box stack.
fn has_entry(live: &LiveTokens, joins: &JoinTable, ticket: u32, at: u32) -> bool
    requires { (t : Boxes) × HasBoxes live.now ticket t }
    ensures { (t : Boxes) × HasBoxes live.now ticket t × (IsTrue result ↔ IsSome (get joins.now (at, t))) }
{
    match live.get(ticket) {
        Some(token) => joins.has(at, token.stacks.boxes()),
        None => unreachable!(),
    }
}

/// Makes the move of a ticket whose token makes no solo move, but no answer and no join whose entry isn't there; then it answers `false`,
/// and all stays.
pub(crate) fn act_own(parts: &mut Parts, net: &Net, ticket: u32) -> Result<bool, AllocError>
    requires stands { StandsStill net.now parts.old.live ticket }
    requires able { OwnAble net.now (state_of parts.old) ticket }
    requires fresh { get parts.old.live parts.old.next ≡ None }
    requires room { parts.old.next + 1 < 2 ^ 32 }
    ensures ok { IfOk result (λ moved. MatchBool moved (StepsOwn net.now (state_of parts.old) ticket (state_of parts.new))
        (StandsForeign net.now (state_of parts.old) ticket × (state_of parts.new ≡ state_of parts.old))) }
    ensures err { OnErr result (state_of parts.new ≡ state_of parts.old) }
{
    let (at, role) = met_at(net, &parts.live, ticket);
    match role {
        Role::Fork(a, b) => {
            split(parts, net, ticket, at, a, b)?;
            Ok(true)
        }
        Role::Join(operator, side, v, c) => {
            let own = has_entry(&parts.live, &parts.joins, ticket, at);
            if own {
                meet(parts, net, ticket, at, operator, side, v, c);
            }
            Ok(own)
        }
        Role::Last(_) => Ok(false),
        Role::Still => unreachable!(),
    }
}

/// Makes the move of a ticket, but no answer and no join whose entry isn't there; then it answers `false`, and all stays.
pub(crate) fn step_own(parts: &mut Parts, net: &Net, ticket: u32) -> Result<bool, AllocError>
    requires live { IsSome (get parts.old.live ticket) }
    requires able { OwnAble net.now (state_of parts.old) ticket }
    requires fresh { get parts.old.live parts.old.next ≡ None }
    requires room { parts.old.next + 1 < 2 ^ 32 }
    ensures ok { IfOk result (λ moved. MatchBool moved (StepsOwn net.now (state_of parts.old) ticket (state_of parts.new))
        (StandsForeign net.now (state_of parts.old) ticket × (state_of parts.new ≡ state_of parts.old))) }
    ensures err { OnErr result (state_of parts.new ≡ state_of parts.old) }
{
    if parts.live.solo(net, ticket)? {
        Ok(true)
    } else {
        act_own(parts, net, ticket)
    }
}
