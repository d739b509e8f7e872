//! The run of one worker.

ghost use Rattle.schedule_log.specs.Logs.{by};
ghost use Rattle.std.specs.Prelude.{◌≡◌, ◌≤◌, ◌<◌, ℕ, IfOk};
ghost use Rattle.pcf_values.specs.Most.{most_budget};
ghost use Rattle.interleave_laws.specs.OneWorker.{one};
ghost use Rattle.interleave_laws.specs.Runs.{Runs};
ghost use Rattle.net_runs.specs.IsRun.{IsRun, IsFirstWorkers};

use interleave_core::{Tickets, run_one};
use interleave_laws::{law_maps, law_one_worker};
use net_build::Net;
use schedule_log::Log;
use std::alloc::{AllocError, Global};
use token_pool::Ended;

/// The run of one worker within a budget of moves, with no lock, no thread and no gate: its answer, if it came to one, and its log. The
/// least live token moves at each turn, in place, and all moves are of the worker of that number. So it is a run of every number of
/// workers above it. Memory for the log is taken when the run is over.
///
/// # Errors
///
/// It runs out of memory; nothing is kept then.
pub fn run_by(alloc: Global, net: &Net, budget: u32, worker: u32) -> Result<Ended, AllocError>
    requires runs { Runs net.now }
    requires budget { (1 ≤ budget) × (budget ≤ most_budget) }
    requires worker { worker < 256 }
    ensures run { IfOk result (λ e. (workers : ℕ) → worker < workers → IsRun net.now workers budget e.answer e.log.entries) }
    ensures log { IfOk result (λ e. e.log.entries ≡ by worker (one net.now budget)) }
{
    law_one_worker();
    law_maps();
    let ran = run_one(alloc, net, budget)?;
    let log = log_of(alloc, &ran.tickets, worker)?;
    Ok(Ended {
        answer: ran.answer,
        log,
    })
}

/// The run of one worker alone, whose number is 0. See `run_by`.
///
/// # Errors
///
/// It runs out of memory; nothing is kept then.
pub fn run_alone(alloc: Global, net: &Net, budget: u32) -> Result<Ended, AllocError>
    requires runs { Runs net.now }
    requires budget { (1 ≤ budget) × (budget ≤ most_budget) }
    ensures run { IfOk result (λ e. IsRun net.now 1 budget e.answer e.log.entries) }
    ensures first { IfOk result (λ e. IsFirstWorkers net.now budget e.log.entries) }
{
    run_by(alloc, net, budget, 0)
}

/// The log of these tickets, all moved by this worker.
fn log_of(alloc: Global, tickets: &Tickets, worker: u32) -> Result<Log, AllocError>
    requires { worker < 256 }
    ensures { IfOk result (λ log. log.entries ≡ by worker tickets.now) }
{
    let mut log = Log::with_room(alloc, tickets.len())?;
    let runs = tickets.runs();
    for run in runs {
        log.push_many(run.ticket, worker, run.count);
    }
    Ok(log)
}
