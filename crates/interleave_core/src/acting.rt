//! One step of a ticket.

ghost use Rattle.std.specs.Prelude.{◌≡◌, ◌+◌, ◌<◌, ◌^◌, ℕ, Some, None, OnOk, OnErr, IfOk, IsSome, true};
ghost use Rattle.std.specs.FinMap.{get};
ghost use Rattle.interleave_laws.specs.Maps.{step_map};
ghost use Rattle.interleave_core.specs.Names.{step_name, MayTake};
ghost use Rattle.interleave_core.specs.Parts.{state_of};
ghost use Rattle.interleave_core.specs.Roles.{MetAt, StandsStill};
ghost use Rattle.interleave_core.specs.declared.roles.Role.TheVariants.{Fork, Join, Last};

use crate::Stepped;
use crate::forking::fork;
use crate::joining::join;
use crate::parts::Parts;
use crate::roles::{Role, met_at};
use net_build::Net;
use pcf_values::{Operator, Side, Val};
use std::alloc::AllocError;

/// The fork of a ticket at a node to two operands.
pub(crate) fn split(
    parts: &mut Parts,
    net: &Net,
    ticket: u32,
    at: u32,
    a: u32,
    b: u32,
) -> Result<Stepped, AllocError>
    requires met { MetAt net.now parts.old.live ticket at (Fork a b) }
    requires able { IsSome (step_map net.now (state_of parts.old) ticket) }
    requires fresh { get parts.old.live parts.old.next ≡ None }
    requires room { parts.old.next + 1 < 2 ^ 32 }
    ensures name { IfOk result (λ s. step_name net.now (state_of parts.old) ticket ≡ Some s) }
    ensures steps { OnOk result (step_map net.now (state_of parts.old) ticket ≡ Some (state_of parts.new)) }
    ensures stays { OnErr result (state_of parts.new ≡ state_of parts.old) }
    ensures taken { OnErr result (MayTake (step_name net.now (state_of parts.old) ticket)) }
{
    let next = parts.next;
    fork(&mut parts.live, &mut parts.joins, ticket, next, at, a, b)?;
    parts.next = next + 1;
    Ok(Stepped::Forked(next))
}

/// The join of a ticket's answer at an operator, whose conclusion is c. Takes no memory.
pub(crate) fn meet(
    parts: &mut Parts,
    net: &Net,
    ticket: u32,
    at: u32,
    operator: Operator,
    side: Side,
    v: Val,
    c: u32,
) -> Stepped
    requires met { MetAt net.now parts.old.live ticket at (Join operator side v c) }
    requires able { IsSome (step_map net.now (state_of parts.old) ticket) }
    ensures name { step_name net.now (state_of parts.old) ticket ≡ Some result }
    ensures steps { step_map net.now (state_of parts.old) ticket ≡ Some (state_of parts.new) }
{
    join(
        &mut parts.live,
        &mut parts.joins,
        ticket,
        at,
        operator,
        side,
        v,
        c,
    )
}

/// The answer that a ticket brings. Takes no memory.
fn end(parts: &mut Parts, net: &Net, ticket: u32, at: u32, v: Val) -> Stepped
    requires met { MetAt net.now parts.old.live ticket at (Last v) }
    ensures name { step_name net.now (state_of parts.old) ticket ≡ Some result }
    ensures steps { step_map net.now (state_of parts.old) ticket ≡ Some (state_of parts.new) }
{
    parts.live.take(ticket);
    parts.answer = Some(v);
    Stepped::Answered(v)
}

/// Makes the one move of a ticket whose token makes no solo move. After want of memory all is as before, and the move was a fork.
pub(crate) fn act(parts: &mut Parts, net: &Net, ticket: u32) -> Result<Stepped, AllocError>
    requires stands { StandsStill net.now parts.old.live ticket }
    requires able { IsSome (step_map net.now (state_of parts.old) ticket) }
    requires fresh { get parts.old.live parts.old.next ≡ None }
    requires room { parts.old.next + 1 < 2 ^ 32 }
    ensures name { IfOk result (λ s. step_name net.now (state_of parts.old) ticket ≡ Some s) }
    ensures steps { OnOk result (step_map net.now (state_of parts.old) ticket ≡ Some (state_of parts.new)) }
    ensures stays { OnErr result (state_of parts.new ≡ state_of parts.old) }
    ensures taken { OnErr result (MayTake (step_name net.now (state_of parts.old) ticket)) }
{
    let (at, role) = met_at(net, &parts.live, ticket);
    match role {
        Role::Fork(a, b) => split(parts, net, ticket, at, a, b),
        Role::Join(operator, side, v, c) => {
            Ok(meet(parts, net, ticket, at, operator, side, v, c))
        }
        Role::Last(v) => Ok(end(parts, net, ticket, at, v)),
        Role::Still => unreachable!(),
    }
}

/// Makes the one move of a ticket. After want of memory all is as before, and the move was a solo move or a fork.
pub(crate) fn step_in(parts: &mut Parts, net: &Net, ticket: u32) -> Result<Stepped, AllocError>
    requires live { IsSome (get parts.old.live ticket) }
    requires able { IsSome (step_map net.now (state_of parts.old) ticket) }
    requires fresh { get parts.old.live parts.old.next ≡ None }
    requires room { parts.old.next + 1 < 2 ^ 32 }
    ensures name { IfOk result (λ s. step_name net.now (state_of parts.old) ticket ≡ Some s) }
    ensures steps { OnOk result (step_map net.now (state_of parts.old) ticket ≡ Some (state_of parts.new)) }
    ensures stays { OnErr result (state_of parts.new ≡ state_of parts.old) }
    ensures taken { OnErr result (MayTake (step_name net.now (state_of parts.old) ticket)) }
{
    if parts.live.solo(net, ticket)? {
        Ok(Stepped::Went)
    } else {
        act(parts, net, ticket)
    }
}
