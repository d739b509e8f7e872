//! The run of a net by so many workers.

ghost use Rattle.std.specs.Prelude.{◌≡◌, ◌≤◌, IfOk};
ghost use Rattle.pcf_values.specs.Most.{most_budget, most_workers};
ghost use Rattle.interleave_laws.specs.Runs.{Runs};
ghost use Rattle.token_pool.specs.Pools.{InLimits};
ghost use Rattle.net_runs.specs.IsRun.{IsRun, IsFirstWorkers};

use crate::alone::run_alone;
use branch_pool::BranchPool;
use branch_runs::OnNet;
use gate_workers::{Gate, drive};
use net_build::Net;
use std::alloc::{AllocError, Global};
use std::marker::Brand;
use std::sync::Wait;
use std::thread::Threads;
use token_pool::{Ended, PoolState};

/// The run of a net by so many workers within a budget of moves: its answer, if it came to one, and its log.
///
/// One worker walks in place, with no lock, no thread and no gate, and its log names worker 0. Several share a pool, in threads of their
/// own as far as threads can be had: each plays branches of the run by itself, and passes the gate before each of them. What they leave is
/// finished behind them, under the number of workers. Memory for the whole log is taken at once then.
///
/// # Errors
///
/// It runs out of memory; the pool, its log and all threads are gone then.
pub fn run_net<R: Threads + Wait + Sync, G: Gate>(
    rt: &R,
    alloc: Global,
    net: &Net,
    budget: u32,
    workers: u32,
    gate: &G,
) -> Result<Ended, AllocError>
    requires runs { Runs net.now }
    requires budget { (1 ≤ budget) × (budget ≤ most_budget) }
    requires workers { (1 ≤ workers) × (workers ≤ most_workers) }
    ensures run { IfOk result (λ e. IsRun net.now workers budget e.answer e.log.entries) }
    ensures alone { IfOk result (λ e. workers ≡ 1 → IsFirstWorkers net.now budget e.log.entries) }
{
    if workers == 1 {
        run_alone(alloc, net, budget)
    } else {
        run_together(rt, alloc, net, budget, workers, gate)
    }
}

/// The run of several workers, who share a pool until it ends for each of them.
fn run_together<R: Threads + Wait + Sync, G: Gate>(
    rt: &R,
    alloc: Global,
    net: &Net,
    budget: u32,
    workers: u32,
    gate: &G,
) -> Result<Ended, AllocError>
    requires runs { Runs net.now }
    requires limits { InLimits budget workers }
    ensures { IfOk result (λ e. IsRun net.now workers budget e.answer e.log.entries) }
{
    let pool = PoolState::start(alloc, net, budget, workers)?;
    let pool = play_together::<Brand, R, G>(rt, alloc, pool, workers, gate);
    Ok(pool.finish_own(alloc, budget, workers)?)
}

/// Workers play branches of the pool's run, on the net that `N` names, until there is nothing to play for any of them.
fn play_together<'n, N: OnNet + Send + Sync, R: Threads + Wait + Sync, G: Gate>(
    rt: &R,
    alloc: Global,
    pool: PoolState<'n>,
    workers: u32,
    gate: &G,
) -> PoolState<'n>
    requires suits { pool.net ≡ N.net }
    requires some { 1 ≤ workers }
    ensures { result.net ≡ pool.entry.net }
{
    let bench: BranchPool<'n, N> = BranchPool::new(pool);
    let tool = bench.tool();
    let bench = drive(rt, alloc, bench, &tool, workers, gate);
    bench.into_pool()
}
