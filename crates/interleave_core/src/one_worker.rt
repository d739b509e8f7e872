//! The run of one worker.

ghost use Rattle.std.specs.Prelude.{◌≡◌, ◌≤◌, ◌<◌, OnOk, IfOk, length};
ghost use Rattle.pcf_values.specs.Most.{most_budget};
ghost use Rattle.interleave_laws.specs.Runs.{Runs};
ghost use Rattle.interleave_laws.specs.OneWorker.{one};
ghost use Rattle.interleave_laws.specs.Maps.{MapState, LeadsToMap};
ghost use Rattle.interleave_laws.specs.Tickets.{IsLeastLive};
ghost use Rattle.interleave_core.specs.Parts.{state_of};
ghost use Rattle.interleave_core.specs.Alone.{RunsAlone};

use crate::acting::act;
use crate::parts::{Parts, begin};
use crate::tickets::Tickets;
use net_build::Net;
use pcf_values::Val;
use std::alloc::{AllocError, Global};

/// What one worker made of a net: the tickets that moved, in turn, and the answer if it came.
#[derive(Drop)]
pub struct Ran {
    /// The tickets that moved, in turn.
    pub tickets: Tickets,
    /// The answer, if it came within the budget.
    pub answer: Option<Val>,
}

/// The least live ticket moves as long as its moves are solo moves, in place, and then makes the move that isn't, as far as the budget
/// goes. They are written down at once.
fn go_on(
    parts: &mut Parts,
    net: &Net,
    ticket: u32,
    tickets: &mut Tickets,
    budget: u32,
) -> Result<(), AllocError>
    requires runs { Runs net.now }
    requires budget { budget ≤ most_budget }
    requires room { length tickets.old < budget }
    requires alone { RunsAlone net.now tickets.old (state_of parts.old) }
    requires least { IsLeastLive (state_of parts.old) ticket }
    ensures alone { OnOk result (RunsAlone net.now tickets.new (state_of parts.new)) }
    ensures longer { OnOk result (length tickets.old < length tickets.new) }
    ensures within { OnOk result (length tickets.new ≤ budget) }
{
    let left = budget - tickets.len();
    let made = parts.live.go(net, ticket, left)?;
    if made == left {
        tickets.add(ticket, made)?;
        return Ok(());
    }
    act(parts, net, ticket)?;
    tickets.add(ticket, made + 1)?;
    Ok(())
}

/// The run of one worker on this net: the least live ticket moves, until the answer comes or the budget is spent. The answer is there
/// exactly where the run of the tickets has it.
///
/// A ticket is looked up once for all its moves up to the next fork, join or answer, and written down once. Besides the net and the live
/// tokens, the run takes the memory of its list, in which these moves are one run.
///
/// # Errors
///
/// It runs out of memory.
pub fn run_one(alloc: Global, net: &Net, budget: u32) -> Result<Ran, AllocError>
    requires runs { Runs net.now }
    requires budget { (1 ≤ budget) × (budget ≤ most_budget) }
    ensures tickets { IfOk result (λ r. r.tickets ≡ one net.now budget) }
    ensures answer { IfOk result (λ r. (S : MapState) × LeadsToMap net.now r.tickets S × (r.answer ≡ S.answered)) }
{
    let mut parts = begin(alloc, net)?;
    let mut tickets = Tickets::new(alloc);
    while tickets.len() < budget {
        match parts.live.least() {
            Some(ticket) => go_on(&mut parts, net, ticket, &mut tickets, budget)?,
            None => break,
        }
    }
    Ok(Ran {
        answer: parts.answer,
        tickets,
    })
}
