//! The pools in which the runs of the jobs begin.

ghost use Rattle.std.specs.Prelude.{◌≡◌, ◌≤◌, map, replicate, None, IfOk};
ghost use Rattle.pcf_values.specs.Most.{most_workers};
ghost use Rattle.batch_pool.specs.Batches.{JobFits, BatchFits, job_started};

use crate::BatchJob;
use std::alloc::{AllocError, Global};
use token_pool::PoolState;

/// The pool in which a job's run begins.
fn start_job<'n>(
    alloc: Global,
    job: &'n BatchJob,
    workers: u32,
) -> Result<PoolState<'n>, AllocError>
    requires fits { JobFits job.now }
    requires some { 1 ≤ workers }
    requires few { workers ≤ most_workers }
    ensures { IfOk result (λ pool. pool ≡ job_started workers job.now) }
{
    PoolState::start(alloc, &job.net, job.budget, workers)
}

/// The pools of all jobs, in turn.
pub(crate) fn start_jobs<'n>(
    alloc: Global,
    jobs: &'n [BatchJob],
    workers: u32,
) -> Result<Vec<PoolState<'n>>, AllocError>
    requires { BatchFits jobs.now workers }
    ensures { IfOk result (λ pools. pools.items ≡ map (job_started workers) jobs.now) }
{
    let mut pools = Vec::with_capacity(alloc, jobs.len())?;
    for job in jobs {
        pools.push(start_job(alloc, job, workers)?)?;
    }
    Ok(pools)
}

/// A place for each worker, none of which holds a ticket.
pub(crate) fn free_places(alloc: Global, workers: u32) -> Result<Vec<Option<u32>>, AllocError>
    ensures { IfOk result (λ places. places.items ≡ replicate workers None) }
{
    Ok(vec![in alloc; None; workers as usize]?)
}
