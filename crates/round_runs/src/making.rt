//! One round, ticket by ticket.

ghost use Rattle.std.specs.Prelude.{◌≡◌, ◌≤◌, ◌<◌, ◌+◌, ◌++◌, [], ◌∷◌, length, Some, OnOk, IsTrue};
ghost use Rattle.pcf_values.specs.Most.{most_budget};
ghost use Rattle.interleave_laws.specs.Maps.{seen, step_map, run_map, LeadsToMap};
ghost use Rattle.interleave_laws.specs.MapRuns.{IsReachedWithin};
ghost use Rattle.interleave_laws.specs.Runs.{Runs};
ghost use Rattle.interleave_laws.specs.Tickets.{IsLive};
ghost use Rattle.round_laws.specs.Rounds.{live_of};

use interleave_core::Core;
use net_build::Net;
use std::alloc::AllocError;

/// Whether a ticket was given out before this one was the next. In the round that began then, no fork made it.
fn is_older(ticket: u32, next: u32) -> bool
    ensures alone { IsTrue result → ticket < next }
    ensures all { ticket < next → IsTrue result }
{
    ticket < next
}

/// A ticket moves, and is written down behind those that moved before.
fn move_one(
    core: &mut Core,
    net: &Net,
    ticket: u32,
    tickets: &mut Vec<u32>,
) -> Result<(), AllocError>
    requires runs { Runs net.now }
    requires live { IsLive core.old ticket }
    requires reached { IsReachedWithin net.now most_budget core.old }
    ensures steps { OnOk result (step_map net.now core.old ticket ≡ Some core.new) }
    ensures log { OnOk result (tickets.new.items ≡ tickets.old.items ++ ticket ∷ []) }
{
    core.step(net, ticket)?;
    tickets.push(ticket)?;
    Ok(())
}

/// A round: each ticket that is live when it begins moves once, the least first, and is written down. A ticket that a fork gives out in it
/// is none of these.
pub(crate) fn move_all(core: &mut Core, net: &Net, tickets: &mut Vec<u32>) -> Result<(), AllocError>
    requires runs { Runs net.now }
    requires led { LeadsToMap net.now tickets.old.items core.old }
    requires room { length tickets.old.items + length (live_of (seen core.old)) ≤ most_budget }
    ensures moves { OnOk result (run_map net.now core.old (live_of (seen core.old)) ≡ Some core.new) }
    ensures log { OnOk result (tickets.new.items ≡ tickets.old.items ++ live_of (seen core.old)) }
{
    let given = core.next_ticket();
    let mut next = core.least_live();
    while let Some(ticket) = next {
        if !is_older(ticket, given) {
            break;
        }
        move_one(core, net, ticket, tickets)?;
        next = core.next_live(ticket);
    }
    Ok(())
}
