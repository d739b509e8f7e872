//! Moves of a held ticket that are booked.
//!
//! No command goes this way: it is the plain form of what `branches` does, kept as the simplest statement of the protocol.

ghost use Rattle.std.specs.Prelude.{◌≡◌, ◌<◌, ◌≤◌, ◌+◌, replicate, length, IfOk, OnErr, IsOk, Some};
ghost use Rattle.pcf_values.specs.Most.{most_budget};
ghost use Rattle.interleave_laws.specs.Runs.{Runs};
ghost use Rattle.interleave_laws.specs.Tickets.{IsLive};
ghost use Rattle.interleave_laws.specs.Maps.{run_map};
ghost use Rattle.interleave_laws.specs.MapRuns.{IsReachedWithin};
ghost use Rattle.interleave_core.specs.Adopting.{Accepts};
ghost use Rattle.schedule_log.specs.LogsSeen.{with_entries};
ghost use Rattle.token_pool.specs.Booking.{Moves, moves_of};

use crate::Held;
use interleave_core::Core;
use move_rules::Moved;
use net_build::Net;
use schedule_log::Log;
use std::alloc::AllocError;

/// Makes the moves of what was handed in, where it is a walk of the held ticket's token within its allowance, and takes no memory then;
/// else one step. Answers how many moves were made. After want of memory all is as before.
pub(crate) fn play(core: &mut Core, net: &Net, held: Held, moved: Moved) -> Result<u32, AllocError>
    requires runs { Runs net.now }
    requires live { IsLive core.old held.ticket }
    requires reached { IsReachedWithin net.now most_budget core.old }
    requires allowed { 1 ≤ held.allowance }
    ensures moves { IfOk result (λ n. Moves net.now core.old held moved n) }
    ensures few { IfOk result (λ n. (1 ≤ n) × (n ≤ held.allowance)) }
    ensures steps { IfOk result (λ n. run_map net.now core.old (replicate n held.ticket) ≡ Some core.new) }
    ensures err { OnErr result (core.new ≡ core.old) }
    ensures ample { Accepts net.now core.old held.ticket moved held.allowance → IsOk result }
{
    match core.adopt(net, held.ticket, moved, held.allowance) {
        Some(count) => Ok(count),
        None => {
            core.step(net, held.ticket)?;
            Ok(1)
        }
    }
}

/// Writes down so many moves of a ticket by a worker, where there is room. Takes no memory.
pub(crate) fn write_down(log: &mut Log, count: u32, ticket: u32, worker: u32)
    requires worker { worker < 256 }
    requires room { length log.old.entries + count ≤ log.old.room }
    ensures { log.new ≡ with_entries log.old (moves_of count ticket worker) }
{
    log.push_many(ticket, worker, count);
}
