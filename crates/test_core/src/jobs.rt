//! The jobs of a list whose names are the texts of programs.

ghost use Rattle.std.specs.Prelude.{◌≡◌, ◌≤◌, length, IfOk};
ghost use Rattle.std.specs.List.{All};
ghost use Rattle.batch_pool.specs.Batches.{JobFits, BatchFits};
ghost use Rattle.batch_lists.specs.Limits.{most_jobs, most_job_budget};

use crate::programs::net_of;
use batch_lists::{BatchLine, read_batch};
use batch_pool::BatchJob;
use std::alloc::{AllocError, Global};

/// The job of a line. A budget out of its limits is answered with want of memory, which fails the test; so are the other faults here.
fn job_of(alloc: Global, line: &BatchLine) -> Result<BatchJob, AllocError>
    ensures { IfOk result JobFits }
{
    let budget = line.budget;
    if budget == 0 || budget > 100_000 {
        return Err(AllocError);
    }
    let net = net_of(alloc, line.file.as_str())?;
    Ok(BatchJob { net, budget })
}

/// The jobs of these lines.
fn jobs_in(alloc: Global, lines: &[BatchLine]) -> Result<Vec<BatchJob>, AllocError>
    ensures { IfOk result (λ jobs. All JobFits jobs.items) }
{
    let mut jobs = Vec::new(alloc);
    for line in lines {
        let job = job_of(alloc, line)?;
        jobs.push(job)?;
    }
    Ok(jobs)
}

/// The jobs of a list, 64 at most.
pub(crate) fn jobs_of(alloc: Global, list: &str) -> Result<Vec<BatchJob>, AllocError>
    ensures each { IfOk result (λ jobs. All JobFits jobs.items) }
    ensures few { IfOk result (λ jobs. length jobs.items ≤ most_jobs) }
{
    let Ok(lines) = read_batch(alloc, list.as_bytes()) else {
        return Err(AllocError);
    };
    let jobs = jobs_in(alloc, &lines)?;
    if jobs.len() > 64 {
        return Err(AllocError);
    }
    Ok(jobs)
}
