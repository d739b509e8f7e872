//! Who moves in a run of a net.

ghost use Rattle.std.specs.Prelude.{◌≡◌, ◌≤◌, OnOk, IfOk, length, Some, None};
ghost use Rattle.pcf_values.specs.declared.val.Val.{Val};
ghost use Rattle.pcf_values.specs.Most.{most_budget};
ghost use Rattle.interleave_laws.specs.Runs.{Runs};
ghost use Rattle.interleave_laws.specs.Maps.{MapState, LeadsToMap};
ghost use Rattle.adequacy_laws.specs.Questions.{Length};
ghost use Rattle.adequacy_laws.specs.Finished.{Beyond};
ghost use Rattle.newest_core.specs.Processor.{newest};
ghost use Rattle.schedule_log.specs.Logs.{by};
ghost use Rattle.newest_runs.specs.Order.{newest_first};
ghost use Rattle.newest_runs.specs.Moving.{IsMoved};

use crate::moving::{Moving, make_move};
use crate::run::begin;
use net_build::Net;
use pcf_values::Val;
use schedule_log::Log;
use std::alloc::{AllocError, Global};

/// Who moved in a run, and what came of it.
#[derive(Drop)]
pub struct Scheduled {
    /// The answer, if it came within the budget.
    pub answer: Option<Val>,
    /// The tickets that moved, in turn, all by worker 0.
    pub log: Log,
}

/// Makes the moves with the newest question first and writes them down, until the answer comes or the budget is spent.
fn write_run(moving: &mut Moving, net: &Net, budget: u32, log: &mut Log) -> Result<(), AllocError>
    requires runs { Runs net.now }
    requires budget { budget ≤ most_budget }
    requires moved { IsMoved net.now moving.old.core moving.old.turn moving.old.moves }
    requires within { moving.old.moves ≤ budget }
    requires written { log.old.entries ≡ by 0 (newest net.now moving.old.moves) }
    requires room { log.old.room ≡ budget }
    ensures moved { OnOk result (IsMoved net.now moving.new.core moving.new.turn moving.new.moves) }
    ensures whole { OnOk result (newest net.now moving.new.moves ≡ newest net.now budget) }
    ensures written { OnOk result (log.new.entries ≡ by 0 (newest net.now moving.new.moves)) }
{
    while moving.moves < budget {
        match moving.turn.ticket {
            Some(ticket) => {
                make_move(moving, net, ticket)?;
                log.push(ticket, 0);
            }
            None => break,
        }
    }
    Ok(())
}

/// The run of this net with the newest question first, until the answer comes or the budget is spent: who moved, and the answer.
///
/// Room for as many moves as the budget allows is taken at once; what isn't used of it is never written.
///
/// # Errors
///
/// It runs out of memory.
pub fn newest_schedule(alloc: Global, net: &Net, budget: u32) -> Result<Scheduled, AllocError>
    requires runs { Runs net.now }
    requires budget { budget ≤ most_budget }
    ensures log { IfOk result (λ s. s.log.entries ≡ by 0 (newest_first net.now budget)) }
    ensures answer { IfOk result (λ s. (S : MapState) × LeadsToMap net.now (newest_first net.now budget) S × (s.answer ≡ S.answered)) }
    ensures as_long { IfOk result (λ s. (v : Val) → s.answer ≡ Some v → Length net.now v (length (newest_first net.now budget))) }
    ensures beyond { IfOk result (λ s. s.answer ≡ None → Beyond net.now budget × (length (newest_first net.now budget) ≡ budget)) }
{
    let mut log = Log::with_room(alloc, budget)?;
    let mut moving = begin(alloc, net)?;
    write_run(&mut moving, net, budget, &mut log)?;
    Ok(Scheduled {
        answer: moving.core.answer(),
        log,
    })
}
