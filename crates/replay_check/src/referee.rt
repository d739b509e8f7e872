//! The replay of a log.

ghost use Rattle.std.specs.Prelude.{◌≡◌, ◌≤◌, length, Err, OnOk, IfErr};
ghost use Rattle.pcf_values.specs.Most.{most_moves};
ghost use Rattle.schedule_log.specs.KeptRuns.{spread};
ghost use Rattle.schedule_log.specs.Logs.{tickets_in_log};
ghost use Rattle.interleave_laws.specs.Start.{start_of};
ghost use Rattle.interleave_laws.specs.Runs.{Runs};
ghost use Rattle.interleave_laws.specs.Maps.{LeadsToMap, start_map};
ghost use Rattle.replay_check.specs.Replays.{ReplaysAs, fault_at};

use crate::fault::ReplayFault;
use crate::replayed::Replayed;
use interleave_core::{Core, run_on};
use net_build::Net;
use schedule_log::{Log, Moves};
use std::alloc::Global;

/// The run of a log's tickets on a net, or the least place at which a ticket isn't live.
///
/// It goes from run to run of the log. A ticket is looked up twice for all its moves up to the next fork, join or answer, and a look-up
/// among the live tickets costs a logarithm of their number. The log is only read.
///
/// # Errors
///
/// `NotLive` or `AfterAnswer` exactly where a ticket isn't live when its turn comes. Or it runs out of memory.
pub fn replay(alloc: Global, net: &Net, log: &Log) -> Result<Replayed, ReplayFault>
    requires runs { Runs net.now }
    requires few { length log.now.entries ≤ most_moves }
    ensures { ReplaysAs net.now (tickets_in_log log.now.entries) result }
{
    let mut core = Core::start(alloc, net)?;
    if let Err(fault) = make_moves(&mut core, net, log.runs()) {
        return Err(fault);
    }
    Ok(Replayed {
        answer: core.answer(),
        moves: log.len(),
    })
}

/// Makes the moves of these runs in turn, from the start of the run, up to the first whose ticket isn't live.
fn make_moves(core: &mut Core, net: &Net, runs: &[Moves]) -> Result<(), ReplayFault>
    requires runs { Runs net.now }
    requires start { core.old ≡ start_map (start_of net.now) }
    requires few { length (spread runs.now) ≤ most_moves }
    ensures moves { OnOk result (LeadsToMap net.now (tickets_in_log (spread runs.now)) core.new) }
    ensures fault { IfErr result (λ f. ReplaysAs net.now (tickets_in_log (spread runs.now)) (Err f)) }
{
    let mut place = 0u32;
    for run in runs {
        let ticket = run.ticket();
        let made = run_on(core, net, ticket, run.count())?;
        place += made;
        if made < run.count() {
            return Err(fault_of(core, place, ticket));
        }
    }
    Ok(())
}

/// The fault of a ticket that isn't live, at this place.
fn fault_of(core: &Core, place: u32, ticket: u32) -> ReplayFault
    ensures { result ≡ fault_at core.now.answered place ticket }
{
    match core.answer() {
        Some(_) => ReplayFault::AfterAnswer(place),
        None => ReplayFault::NotLive(place, ticket),
    }
}
