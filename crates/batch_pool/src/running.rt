//! The runs of all jobs of a batch.

ghost use Rattle.std.specs.Prelude.{◌≡◌, ◌≤◌, ◌++◌, List, IfOk, OnOk};
ghost use Rattle.std.specs.List.{All};
ghost use Rattle.pcf_values.specs.Most.{most_workers};
ghost use Rattle.token_pool.specs.declared.ending.Ended.{Ended};
ghost use Rattle.batch_pool.specs.Batches.{JobFits, BatchFits};
ghost use Rattle.batch_pool.specs.AreRuns.{IsRunOf, AreRuns};

use crate::BatchJob;
use crate::apart::run_apart;
use gate_workers::Gate;
use net_runs::run_net;
use std::alloc::{AllocError, Global};
use std::sync::Wait;
use std::thread::Threads;
use token_pool::Ended;

/// The runs of these jobs by so many workers, in turn: each is a run of its own job's net within its own job's budget.
///
/// One worker runs the jobs one after another, each in place, with no lock, no thread and no gate, and all its moves are of worker 0.
/// Several run in threads of their own as far as threads can be had.
///
/// Where there are at least as many jobs as workers, each job is one worker's. All that the workers share is the number of the next job:
/// a worker takes it, passes the gate and runs that job alone, with no lock, and then takes the next, until there is none. Its moves are
/// booked under its own number. Memory for a job's log is taken when its run is over.
///
/// Where there are fewer jobs than workers, all workers run each job in turn, as `run_net` has it: a job is over before the next begins.
///
/// # Errors
///
/// It runs out of memory.
pub fn run_batch<R: Threads + Wait + Sync, G: Gate>(
    rt: &R,
    alloc: Global,
    jobs: &Vec<BatchJob>,
    workers: u32,
    gate: &G,
) -> Result<Vec<Ended>, AllocError>
    requires { BatchFits jobs.now.items workers }
    ensures { IfOk result (λ ends. AreRuns jobs.now.items workers ends.items) }
{
    if 2 <= workers && workers as usize <= jobs.len() {
        run_apart(rt, alloc, jobs, workers, gate)
    } else {
        run_each(rt, alloc, jobs, workers, gate)
    }
}

/// The run of one job by so many workers.
fn run_job<R: Threads + Wait + Sync, G: Gate>(
    rt: &R,
    alloc: Global,
    job: &BatchJob,
    workers: u32,
    gate: &G,
) -> Result<Ended, AllocError>
    requires fits { JobFits job.now }
    requires workers { (1 ≤ workers) × (workers ≤ most_workers) }
    ensures { IfOk result (IsRunOf job.now workers) }
{
    run_net(rt, alloc, &job.net, job.budget, workers, gate)
}

/// Adds the runs of the jobs that are left, by so many workers.
fn run_rest<R: Threads + Wait + Sync, G: Gate>(
    rt: &R,
    alloc: Global,
    jobs: &[BatchJob],
    workers: u32,
    gate: &G,
    ends: &mut Vec<Ended>,
) -> Result<(), AllocError>
    requires fit { All JobFits jobs.now }
    requires workers { (1 ≤ workers) × (workers ≤ most_workers) }
    ensures { OnOk result ((more : List Ended) × (ends.new.items ≡ ends.old.items ++ more) × AreRuns jobs.now workers more) }
{
    match jobs {
        [] => Ok(()),
        [job, rest @ ..] => {
            let end = run_job(rt, alloc, job, workers, gate)?;
            ends.push(end)?;
            run_rest(rt, alloc, rest, workers, gate, ends)
        }
    }
}

/// The runs of the jobs one after another, each by so many workers.
fn run_each<R: Threads + Wait + Sync, G: Gate>(
    rt: &R,
    alloc: Global,
    jobs: &[BatchJob],
    workers: u32,
    gate: &G,
) -> Result<Vec<Ended>, AllocError>
    requires fit { All JobFits jobs.now }
    requires workers { (1 ≤ workers) × (workers ≤ most_workers) }
    ensures { IfOk result (λ ends. AreRuns jobs.now workers ends.items) }
{
    let mut ends = Vec::with_capacity(alloc, jobs.len())?;
    run_rest(rt, alloc, jobs, workers, gate, &mut ends)?;
    Ok(ends)
}
