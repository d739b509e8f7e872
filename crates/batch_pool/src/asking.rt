//! How the jobs are asked for a ticket, the least one first.
//!
//! No command goes this way: it is `take` of the plain form, kept as the simplest statement of the protocol.

ghost use Rattle.std.specs.Prelude.{◌≡◌, ◌<◌, ◌≤◌, ◌+◌, ℕ, false, length, IfOk, OnErr, if◌then◌else◌};
ghost use Rattle.token_pool.specs.declared.entries.Held.{Held};
ghost use Rattle.token_pool.specs.Pools.{Pool};
ghost use Rattle.batch_pool.specs.Batches.{IsPool, HoldsIn, HoldsNowhere};
ghost use Rattle.batch_pool.specs.Asking.{GivesToken, HasTicket};
ghost use Rattle.batch_lists.specs.Limits.{most_jobs};
ghost use Rattle.batch_pool.specs.Keeping.{Spared, Counted};
ghost use Rattle.batch_pool.specs.Steps.{Offers, OffersAt, TakesFirst, GivesAgain, IsServing};

use crate::BatchTaken;
use crate::spare::{spare_after, spare_at};
use std::alloc::AllocError;
use token_pool::{Piece, PoolState, Taken};

/// What one job has for a worker.
#[derive(Drop)]
pub(crate) enum Offer {
    /// A ticket, which the worker holds from now on.
    Token(Piece),
    /// Nothing now.
    Waits,
    /// Nothing any more.
    Over,
}

/// What a pool has for a worker.
fn ask(pool: &mut PoolState<'_>, worker: u32) -> Result<Offer, AllocError>
    requires place { worker < pool.old.workers }
    requires running { pool.old.stopped ≡ false }
    ensures ok { IfOk result (λ offer. Offers pool.old worker offer pool.new) }
    ensures err { OnErr result (pool.new ≡ pool.old) }
    ensures ample { OnErr result (GivesToken pool.old worker) }
{
    match pool.take(worker)? {
        Taken::Token(piece) => Ok(Offer::Token(piece)),
        Taken::Idle | Taken::Reserved => Ok(Offer::Waits),
        Taken::Ended | Taken::Stopped => Ok(Offer::Over),
    }
}

/// What a job has for a worker.
fn ask_job(pools: &mut Vec<PoolState<'_>>, job: usize, worker: u32) -> Result<Offer, AllocError>
    requires serving { IsServing pools.old.items worker }
    requires within { job < length pools.old.items }
    ensures ok { IfOk result (λ offer. OffersAt pools.old.items worker job offer pools.new.items) }
    ensures err { OnErr result (pools.new.items ≡ pools.old.items) }
    ensures ample { OnErr result (HasTicket pools.old.items worker) }
{
    let offer = ask(&mut pools[job], worker)?;
    Ok(offer)
}

/// The ticket that the worker holds in this job, again.
pub(crate) fn take_again(
    pools: &mut Vec<PoolState<'_>>,
    job: u32,
    worker: u32,
) -> Result<Piece, AllocError>
    requires serving { IsServing pools.old.items worker }
    requires holds { (h : Held) × HoldsIn pools.old.items worker job h }
    ensures ok { IfOk result (GivesAgain pools.old.items worker job) }
    ensures same { pools.new.items ≡ pools.old.items }
    ensures ample { OnErr result (HasTicket pools.old.items worker) }
{
    match ask_job(pools, job as usize, worker)? {
        Offer::Token(piece) => Ok(piece),
        Offer::Waits | Offer::Over => unreachable!(),
    }
}

/// What a job has for a worker, with what is spare in all jobs counted anew.
fn ask_next(
    pools: &mut Vec<PoolState<'_>>,
    spare: &mut u64,
    job: usize,
    worker: u32,
) -> Result<Offer, AllocError>
    requires serving { IsServing pools.old.items worker }
    requires within { job < length pools.old.items }
    requires spared { Spared pools.old.items spare.old }
    ensures ok { IfOk result (λ offer. OffersAt pools.old.items worker job offer pools.new.items) }
    ensures err { OnErr result (pools.new.items ≡ pools.old.items) }
    ensures ample { OnErr result (HasTicket pools.old.items worker) }
    ensures spared { Spared pools.new.items spare.new }
{
    let before = spare_at(pools, job);
    let offer = ask_job(pools, job, worker)?;
    let now = spare_at(pools, job);
    *spare = spare_after(*spare, before, now);
    Ok(offer)
}

/// One job more is passed where all jobs before it and itself are over.
fn pass(passed: &mut usize, over: bool, job: usize)
    requires within { job < most_jobs }
    ensures { passed.new ≡ (if over then job + 1 else passed.old) }
{
    if over {
        *passed = job + 1;
    }
}

/// Asks the jobs in turn, where a worker holds nothing, until one gives a ticket. Where none does, all are over or some aren't.
///
/// The call begins behind the jobs that are known to be over, and passes over those that it finds to be so behind them.
pub(crate) fn take_first(
    pools: &mut Vec<PoolState<'_>>,
    passed: &mut usize,
    spare: &mut u64,
    worker: u32,
) -> Result<BatchTaken, AllocError>
    requires serving { IsServing pools.old.items worker }
    requires free { HoldsNowhere pools.old.items worker }
    requires few { length pools.old.items ≤ most_jobs }
    requires counted { Counted pools.old.items passed.old spare.old }
    ensures ok { IfOk result (λ taken. TakesFirst pools.old.items worker taken pools.new.items) }
    ensures err { OnErr result (pools.new.items ≡ pools.old.items) }
    ensures ample { OnErr result (HasTicket pools.old.items worker) }
    ensures counted { Counted pools.new.items passed.new spare.new }
{
    let mut over = true;
    for job in *passed..pools.len() {
        match ask_next(pools, spare, job, worker)? {
            Offer::Token(piece) => return Ok(BatchTaken::Token(job as u32, piece)),
            Offer::Waits => over = false,
            Offer::Over => pass(passed, over, job),
        }
    }
    Ok(if over {
        BatchTaken::Ended
    } else {
        BatchTaken::Pause
    })
}
