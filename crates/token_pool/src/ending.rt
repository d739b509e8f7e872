//! The end of a run, by least live ticket.

ghost use Rattle.std.specs.Prelude.{◌<◌, ◌≡◌, ◌≤◌, OnOk, length};
ghost use Rattle.pcf_values.specs.Most.{most_budget};
ghost use Rattle.interleave_laws.specs.Maps.{LeadsToMap};
ghost use Rattle.interleave_laws.specs.Runs.{Runs};
ghost use Rattle.schedule_log.specs.Logs.{tickets_in_log};
ghost use Rattle.token_pool.specs.Ending.{finished};

use interleave_core::Core;
use net_build::Net;
use pcf_values::Val;
use schedule_log::Log;
use std::alloc::AllocError;

/// A run's answer, if it came, and all moves that were made.
#[derive(Drop)]
pub struct Ended {
    /// The answer, and `None` exactly where the log's run has none.
    pub answer: Option<Val>,
    /// The moves in turn, those of the finisher under the number of workers.
    pub log: Log,
}

/// The least live ticket moves, until the answer or the budget.
pub(crate) fn play_on(
    core: &mut Core,
    net: &Net,
    log: &mut Log,
    budget: u32,
    finisher: u32,
) -> Result<(), AllocError>
    requires runs { Runs net.now }
    requires leads { LeadsToMap net.now (tickets_in_log log.old.entries) core.old }
    requires small { budget ≤ most_budget }
    requires within { length log.old.entries ≤ budget }
    requires room { budget ≤ log.old.room }
    requires finisher { finisher < 256 }
    ensures leads { OnOk result (LeadsToMap net.now (tickets_in_log log.new.entries) core.new) }
    ensures moves { OnOk result (log.new.entries ≡ finished net.now core.old budget finisher log.old.entries) }
{
    while log.len() < budget {
        match core.least_live() {
            Some(ticket) => {
                core.step(net, ticket)?;
                log.push(ticket, finisher);
            }
            None => break,
        }
    }
    Ok(())
}
