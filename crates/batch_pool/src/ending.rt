//! The ends of the jobs.

ghost use Rattle.std.specs.Prelude.{◌≡◌, ◌≤◌, ◌++◌, List, None, IfOk, OnOk};
ghost use Rattle.std.specs.List.{All};
ghost use Rattle.std.specs.Vec.Iter.{into_iter_items};
ghost use Rattle.pcf_values.specs.Most.{most_workers};
ghost use Rattle.token_pool.specs.declared.ending.Ended.{Ended};
ghost use Rattle.token_pool.specs.Ending.{Replays};
ghost use Rattle.batch_pool.specs.Batches.{JobFits, BatchFits};
ghost use Rattle.batch_pool.specs.Ending.{EndsAs, EndsEach};
ghost use Rattle.batch_pool.specs.Steps.{Pops};

use crate::BatchJob;
use std::alloc::{AllocError, Global};
use std::vec::IntoIter;
use token_pool::{Ended, PoolState};

/// A job's end from its start.
fn run_from_start(alloc: Global, job: &BatchJob, workers: u32) -> Result<Ended, AllocError>
    requires fits { JobFits job.now }
    requires some { 1 ≤ workers }
    requires few { workers ≤ most_workers }
    ensures ends { IfOk result (EndsAs None job.now workers) }
    ensures replays { IfOk result (Replays job.now.net job.now.budget workers) }
{
    let pool = PoolState::start(alloc, &job.net, job.budget, workers)?;
    pool.finish(alloc, &job.net, job.budget, workers)
}

/// A job's end, from its pool if it has one.
fn finish_job(
    alloc: Global,
    pool: Option<PoolState<'_>>,
    job: &BatchJob,
    workers: u32,
) -> Result<Ended, AllocError>
    requires fits { JobFits job.now }
    requires some { 1 ≤ workers }
    requires few { workers ≤ most_workers }
    ensures ends { IfOk result (EndsAs pool.entry job.now workers) }
    ensures replays { IfOk result (Replays job.now.net job.now.budget workers) }
{
    match pool {
        Some(pool) => pool.finish(alloc, &job.net, job.budget, workers),
        None => run_from_start(alloc, job, workers),
    }
}

/// The first pool that is left.
fn next_pool<'n>(pools: &mut IntoIter<PoolState<'n>>) -> Option<PoolState<'n>>
    ensures { Pops (into_iter_items pools.old) result (into_iter_items pools.new) }
{
    pools.next()
}

/// Adds the ends of the jobs that are left, from the pools that are left.
fn finish_rest(
    alloc: Global,
    mut pools: IntoIter<PoolState<'_>>,
    jobs: &[BatchJob],
    workers: u32,
    ends: &mut Vec<Ended>,
) -> Result<(), AllocError>
    requires each { All JobFits jobs.now }
    requires some { 1 ≤ workers }
    requires few { workers ≤ most_workers }
    ensures { OnOk result ((more : List Ended) × (ends.new.items ≡ ends.old.items ++ more)
        × EndsEach (into_iter_items pools.entry) jobs.now workers more) }
{
    match jobs {
        [] => Ok(()),
        [job, rest @ ..] => {
            let end = finish_job(alloc, next_pool(&mut pools), job, workers)?;
            ends.push(end)?;
            finish_rest(alloc, pools, rest, workers, ends)
        }
    }
}

/// The ends of all jobs, in turn.
pub(crate) fn finish_jobs(
    alloc: Global,
    pools: Vec<PoolState<'_>>,
    jobs: &[BatchJob],
    workers: u32,
) -> Result<Vec<Ended>, AllocError>
    requires { BatchFits jobs.now workers }
    ensures { IfOk result (λ ends. EndsEach pools.entry.items jobs.now workers ends.items) }
{
    let mut ends = Vec::with_capacity(alloc, jobs.len())?;
    finish_rest(alloc, pools.into_iter(), jobs, workers, &mut ends)?;
    Ok(ends)
}
