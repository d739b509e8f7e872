//! Whole jobs, each by one worker alone.

ghost use Rattle.std.specs.Prelude.{◌≡◌, ◌≤◌, ◌<◌, ◌++◌, List, Some, None, length, replicate, set, IfOk, IfSome, OnOk};
ghost use Rattle.std.specs.List.{All};
ghost use Rattle.std.specs.Vec.Iter.{into_iter_items};
ghost use Rattle.token_pool.specs.declared.ending.Ended.{Ended};
ghost use Rattle.batch_pool.specs.Apart.{IsRunBy, IsRanBy, IsRanIn, Brings, with_ends, EndsBy, EndsEachBy};
ghost use Rattle.batch_pool.specs.Batches.{JobFits};
ghost use Rattle.batch_pool.specs.AreRuns.{AreRuns};
ghost use Rattle.batch_pool.specs.Steps.{Pops};

use crate::BatchJob;
use gate_workers::Gate;
use net_runs::run_by;
use std::alloc::{AllocError, Global};
use std::sync::atomic::{AtomicUsize, Ordering};
use std::thread::{Threads, join};
use std::vec::IntoIter;
use token_pool::Ended;

/// A job that was run.
#[derive(Drop)]
pub(crate) struct RanJob {
    /// The job's number, from 0.
    pub(crate) job: usize,
    /// What its run came to.
    pub(crate) end: Ended,
}

/// Passes the gate, and runs the job of this number, if there is one.
fn run_next<G: Gate>(
    alloc: Global,
    jobs: &[BatchJob],
    number: usize,
    gate: &G,
    worker: u32,
    turn: u64,
) -> Result<Option<RanJob>, AllocError>
    requires fits { All JobFits jobs.now }
    requires worker { worker < 256 }
    ensures passed { number < length jobs.now → G.passes gate.now worker turn }
    ensures brings { IfOk result (Brings jobs.now worker number) }
{
    match jobs.get(number) {
        Some(job) => {
            gate.between(worker, turn);
            let end = run_by(alloc, &job.net, job.budget, worker)?;
            Ok(Some(RanJob { job: number, end }))
        }
        None => Ok(None),
    }
}

/// The runs that one worker makes, each of the job that comes next, until there is none. It takes as many numbers as there are jobs at
/// most.
fn run_some<G: Gate>(
    alloc: Global,
    jobs: &[BatchJob],
    next: &AtomicUsize,
    gate: &G,
    worker: u32,
) -> Result<Vec<RanJob>, AllocError>
    requires fits { All JobFits jobs.now }
    requires worker { worker < 256 }
    ensures { IfOk result (λ rans. All (IsRanBy jobs.now worker) rans.items) }
{
    let mut rans = Vec::new(alloc);
    for turn in 0..jobs.len() {
        let number = next.fetch_add(1, Ordering::SeqCst);
        match run_next(alloc, jobs, number, gate, worker, turn as u64)? {
            Some(ran) => rans.push(ran)?,
            None => break,
        }
    }
    Ok(rans)
}

/// The runs that one worker makes. Where it meets want of memory, no job is left for the others, who end with the one in hand.
fn work_as<G: Gate>(
    alloc: Global,
    jobs: &[BatchJob],
    next: &AtomicUsize,
    gate: &G,
    worker: u32,
) -> Result<Vec<RanJob>, AllocError>
    requires fits { All JobFits jobs.now }
    requires worker { worker < 256 }
    ensures { IfOk result (λ rans. All (IsRanBy jobs.now worker) rans.items) }
{
    let rans = run_some(alloc, jobs, next, gate, worker);
    if rans.is_err() {
        next.store(jobs.len(), Ordering::SeqCst);
    }
    rans
}

/// Two lists in one.
fn both(mut first: Vec<RanJob>, mut second: Vec<RanJob>) -> Result<Vec<RanJob>, AllocError>
    ensures { IfOk result (λ rans. rans.items ≡ first.items ++ second.items) }
{
    first.append(&mut second)?;
    Ok(first)
}

/// The runs that the workers make from the one number to below the other, the halves of them side by side.
fn work_from<R: Threads + Sync, G: Gate>(
    rt: &R,
    alloc: Global,
    jobs: &[BatchJob],
    next: &AtomicUsize,
    gate: &G,
    from: u32,
    to: u32,
) -> Result<Vec<RanJob>, AllocError>
    requires some { from < to }
    requires few { to ≤ 256 }
    requires fits { All JobFits jobs.now }
    ensures { IfOk result (λ rans. All (IsRanIn jobs.now from to) rans.items) }
{
    if to - from == 1 {
        return work_as(alloc, jobs, next, gate, from);
    }
    let middle = from + (to - from) / 2;
    let (first, second) = join(
        rt,
        || -> Result<Vec<RanJob>, AllocError>
            requires { (from < middle) × (middle ≤ 256) × All JobFits jobs.now }
            ensures { IfOk result (λ rans. All (IsRanIn jobs.entry.now from middle) rans.items) }
        { work_from(rt, alloc, jobs, next, gate, from, middle) },
        || -> Result<Vec<RanJob>, AllocError>
            requires { (middle < to) × (to ≤ 256) × All JobFits jobs.now }
            ensures { IfOk result (λ rans. All (IsRanIn jobs.entry.now middle to) rans.items) }
        { work_from(rt, alloc, jobs, next, gate, middle, to) },
    );
    both(first?, second?)
}

/// A place for the end of each job, all of them empty.
fn no_ends(alloc: Global, jobs: &[BatchJob]) -> Result<Vec<Option<Ended>>, AllocError>
    ensures { IfOk result (λ places. places.items ≡ replicate (length jobs.now) None) }
{
    let mut places = Vec::with_capacity(alloc, jobs.len())?;
    for _job in jobs {
        places.push(None)?;
    }
    Ok(places)
}

/// Puts an end into the place of its job.
fn put(places: &mut Vec<Option<Ended>>, ran: RanJob)
    ensures { places.new.items ≡ set places.old.items ran.job (Some ran.end) }
{
    if ran.job < places.len() {
        places[ran.job] = Some(ran.end);
    }
}

/// Puts all these ends into the places of their jobs.
fn put_all(places: &mut Vec<Option<Ended>>, mut rans: Vec<RanJob>)
    ensures { places.new.items ≡ with_ends rans.items places.old.items }
{
    while let Some(ran) = rans.pop() {
        put(places, ran);
    }
}

/// The end of a job that was brought, or of its run there and then by worker 0.
fn end_of(alloc: Global, place: Option<Option<Ended>>, job: &BatchJob) -> Result<Ended, AllocError>
    requires { JobFits job.now }
    ensures { IfOk result (EndsBy place job.now) }
{
    match place {
        Some(Some(end)) => Ok(end),
        Some(None) | None => run_by(alloc, &job.net, job.budget, 0),
    }
}

/// The first place that is left.
fn next_place(places: &mut IntoIter<Option<Ended>>) -> Option<Option<Ended>>
    ensures { Pops (into_iter_items places.old) result (into_iter_items places.new) }
{
    places.next()
}

/// Adds the ends of the jobs that are left, from the places that are left.
fn gather_rest(
    alloc: Global,
    mut places: IntoIter<Option<Ended>>,
    jobs: &[BatchJob],
    ends: &mut Vec<Ended>,
) -> Result<(), AllocError>
    requires { All JobFits jobs.now }
    ensures { OnOk result ((more : List Ended) × (ends.new.items ≡ ends.old.items ++ more)
        × EndsEachBy (into_iter_items places) jobs.now more) }
{
    match jobs {
        [] => Ok(()),
        [job, rest @ ..] => {
            let end = end_of(alloc, next_place(&mut places), job)?;
            ends.push(end)?;
            gather_rest(alloc, places, rest, ends)
        }
    }
}

/// The ends of the jobs in turn, from their places.
fn gather(
    alloc: Global,
    jobs: &[BatchJob],
    places: Vec<Option<Ended>>,
) -> Result<Vec<Ended>, AllocError>
    requires { All JobFits jobs.now }
    ensures { IfOk result (λ ends. EndsEachBy places.items jobs.now ends.items) }
{
    let mut ends = Vec::with_capacity(alloc, jobs.len())?;
    gather_rest(alloc, places.into_iter(), jobs, &mut ends)?;
    Ok(ends)
}

/// The ends of the jobs in turn, where these were run.
fn in_turn(alloc: Global, jobs: &[BatchJob], rans: Vec<RanJob>) -> Result<Vec<Ended>, AllocError>
    requires { All JobFits jobs.now }
    ensures { IfOk result (λ ends. EndsEachBy (with_ends rans.items (replicate (length jobs.now) None)) jobs.now ends.items) }
{
    let mut places = no_ends(alloc, jobs)?;
    put_all(&mut places, rans);
    gather(alloc, jobs, places)
}

/// The runs of several workers, each of whom takes whole jobs.
///
/// All that they share is the number of the next job. A worker takes it, passes the gate and runs that job alone, with no lock; then it
/// takes the next, until there is none. Its moves are booked under its own number. An end that no worker brought is that of a run there
/// and then by worker 0.
pub(crate) fn run_apart<R: Threads + Sync, G: Gate>(
    rt: &R,
    alloc: Global,
    jobs: &[BatchJob],
    workers: u32,
    gate: &G,
) -> Result<Vec<Ended>, AllocError>
    requires fits { All JobFits jobs.now }
    requires several { 2 ≤ workers }
    requires few { workers ≤ 256 }
    ensures { IfOk result (λ ends. AreRuns jobs.now workers ends.items) }
{
    let next = AtomicUsize::new(0);
    let rans = work_from(rt, alloc, jobs, &next, gate, 0, workers)?;
    in_turn(alloc, jobs, rans)
}
