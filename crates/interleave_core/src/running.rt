//! The moves of one ticket, as long as it is live.

ghost use Rattle.std.specs.Prelude.{◌≡◌, ◌+◌, ◌<◌, ◌≤◌, ℕ, List, IfOk, None, Some, length, replicate};
ghost use Rattle.std.specs.FinMap.{get};
ghost use Rattle.pcf_values.specs.Most.{most_budget};
ghost use Rattle.interleave_laws.specs.Maps.{LeadsToMap, run_map};
ghost use Rattle.interleave_laws.specs.Runs.{Runs};
ghost use Rattle.interleave_laws.specs.Tickets.{IsLive};

use crate::machine::Core;
use net_build::Net;
use std::alloc::AllocError;

/// A live ticket's solo moves, and then the move that isn't one, at most so many in all; how many they are.
fn turn(core: &mut Core, net: &Net, ticket: u32, most: u32) -> Result<u32, AllocError>
    requires runs { Runs net.now }
    requires live { IsLive core.old ticket }
    requires some { 1 ≤ most }
    requires reached { (log : List ℕ) × LeadsToMap net.now log core.old × (length log + most ≤ most_budget) }
    ensures moves { IfOk result (λ n. run_map net.now core.old (replicate n ticket) ≡ Some core.new) }
    ensures some { IfOk result (λ n. 1 ≤ n) }
    ensures few { IfOk result (λ n. n ≤ most) }
{
    let made = core.walk(net, ticket, most)?;
    if made == most {
        return Ok(made);
    }
    core.step(net, ticket)?;
    Ok(made + 1)
}

/// Makes the moves of a ticket on this net, at most `most`, as long as it is live; how many they are. They are fewer exactly where the
/// ticket isn't live behind them. It is looked up twice for all its moves up to the next fork, join or answer.
///
/// # Errors
///
/// It runs out of memory; some of the moves may be made then.
pub fn run_on(core: &mut Core, net: &Net, ticket: u32, most: u32) -> Result<u32, AllocError>
    requires runs { Runs net.now }
    requires reached { (log : List ℕ) × LeadsToMap net.now log core.old × (length log + most ≤ most_budget) }
    ensures moves { IfOk result (λ n. run_map net.now core.old (replicate n ticket) ≡ Some core.new) }
    ensures few { IfOk result (λ n. n ≤ most) }
    ensures ends { IfOk result (λ n. n < most → get core.new.tokens ticket ≡ None) }
{
    let mut made = 0u32;
    while made < most {
        if !core.is_live(ticket) {
            break;
        }
        made += turn(core, net, ticket, most - made)?;
    }
    Ok(made)
}
