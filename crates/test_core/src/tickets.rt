//! Live tickets, and their moves one by one.

ghost use Rattle.std.specs.Prelude.{◌+◌, ◌<◌, OnOk};
ghost use Rattle.interleave_laws.specs.Runs.{Runs};
ghost use Rattle.interleave_laws.specs.MapRuns.{IsReachedWithin};

use interleave_core::{Core, Stepped};
use net_build::Net;
use std::alloc::{AllocError, Global};
use testing_gates::number;

/// The next move of a run of so many moves. A ticket that isn't live is answered with want of memory, which fails the test.
pub(crate) fn go(net: &Net, core: &mut Core, moves: u32, ticket: u32) -> Result<Stepped, AllocError>
    requires runs { Runs net.now }
    requires short { moves < 10000 }
    requires reached { IsReachedWithin net.now (moves + 1) core.old }
    ensures { OnOk result (IsReachedWithin net.now (moves + 2) core.new) }
{
    if core.is_live(ticket) {
        core.step(net, ticket)
    } else {
        Err(AllocError)
    }
}

/// Whether these are the live tickets, from the least on.
pub(crate) fn are_live(core: &Core, tickets: &str) -> bool {
    let mut next = core.least_live();
    for word in tickets.split_whitespace() {
        match next {
            Some(ticket) if ticket == number(word) => next = core.next_live(ticket),
            _ => return false,
        }
    }
    next.is_none() && core.live_count() as usize == tickets.split_whitespace().count()
}
