//! Whole batches, by one worker and by threads.

ghost use Rattle.std.specs.Prelude.{◌≤◌};
ghost use Rattle.pcf_values.specs.Most.{most_workers};

use crate::jobs::jobs_of;
use crate::pools::is_answer;
use batch_pool::run_batch;
use gate_workers::{Gate, OpenGate};
use std::alloc::{AllocError, Global};
use std::sync::Wait;
use std::test::Fail;
use std::thread::Threads;
use testing_gates::{Counting, Meeting, cut, number};
use token_pool::Ended;

/// Whether a job's end is so: `V:M` for a value after so many moves, and `-:M` for no value.
fn is_end(end: &Ended, text: &str) -> bool {
    let (value, moves) = cut(text, ':');
    is_answer(end.answer, value) && end.log.len() == number(moves)
}

/// Whether these are the ends, in turn.
pub(crate) fn are_ends(ends: &[Ended], wanted: &str) -> bool {
    let mut rows = wanted.split_whitespace();
    for end in ends {
        let same = match rows.next() {
            Some(text) => is_end(end, text),
            None => false,
        };
        if !same {
            return false;
        }
    }
    rows.next().is_none()
}

/// The ends of a list of programs that so many workers run behind this gate.
fn ends_of<R: Threads + Wait + Sync, G: Gate>(
    rt: &R,
    alloc: Global,
    list: &str,
    workers: u32,
    gate: &G,
) -> Result<Vec<Ended>, AllocError>
    requires some { 1 ≤ workers }
    requires few { workers ≤ most_workers }
{
    let jobs = jobs_of(alloc, list)?;
    let ends = run_batch(rt, alloc, &jobs, workers, gate);
    drop(jobs);
    ends
}

/// Whether so many workers make these ends of a list of programs.
fn comes_to<R: Threads + Wait + Sync>(
    rt: &R,
    alloc: Global,
    list: &str,
    workers: u32,
    wanted: &str,
) -> Result<bool, AllocError>
    requires some { 1 ≤ workers }
    requires few { workers ≤ most_workers }
{
    let ends = ends_of(rt, alloc, list, workers, &OpenGate)?;
    Ok(are_ends(&ends, wanted))
}

/// Whether one of so many workers booked all moves of this run.
fn is_one_workers(end: &Ended, workers: u32) -> bool {
    let first = end.log.worker(0).unwrap_or(workers);
    for n in 1..end.log.len() {
        if end.log.worker(n) != Some(first) {
            return false;
        }
    }
    first < workers
}

/// Whether so many workers make these ends of a list of programs, and pass the gate so often, where each run is one worker's.
fn comes_apart_to<R: Threads + Wait + Sync>(
    rt: &R,
    alloc: Global,
    list: &str,
    workers: u32,
    wanted: &str,
    passes: u64,
) -> Result<bool, AllocError>
    requires some { 1 ≤ workers }
    requires few { workers ≤ most_workers }
{
    let gate = Counting::new(alloc, workers)?;
    let ends = ends_of(rt, alloc, list, workers, &gate)?;
    for end in &ends {
        if !is_one_workers(end, workers) {
            return Ok(false);
        }
    }
    Ok(are_ends(&ends, wanted) && gate.calls() == passes && gate.wrong_turns() == 0)
}

#[test]
fn each_job_comes_to_its_own_end(rt: HostRuntime) -> Result<(), Fail> {
    let list = "batch 1
job 30 (fun x:nat. x + x) 3
job 5 1 + 2
job 6 1 + 2
job 100 fix y:nat. y
job 1 3
job 100000 (fix f:nat->nat. fun n:nat. ifz n then 0 else n + f (pred n)) 3
end
";
    let wanted = "6:30 -:5 3:6 -:100 -:1 6:330";
    assert!(rt; comes_to(&rt, rt.alloc(), list, 1, wanted)?);
    assert!(rt; comes_to(&rt, rt.alloc(), list, 2, wanted)?);
    assert!(rt; comes_to(&rt, rt.alloc(), list, 4, wanted)?);
    assert!(rt; comes_to(&rt, rt.alloc(), list, 64, wanted)?);
    Ok(())
}

/// Four jobs, and their ends.
const FOUR: &str = "batch 1
job 30 (fun x:nat. x + x) 3
job 5 1 + 2
job 100 fix y:nat. y
job 6 1 + 2
end
";

const FOUR_ENDS: &str = "6:30 -:5 -:100 3:6";

#[test]
fn each_job_is_one_workers(rt: HostRuntime) -> Result<(), Fail> {
    assert!(rt; comes_apart_to(&rt, rt.alloc(), FOUR, 1, FOUR_ENDS, 0)?);
    assert!(rt; comes_apart_to(&rt, rt.alloc(), FOUR, 2, FOUR_ENDS, 4)?);
    assert!(rt; comes_apart_to(&rt, rt.alloc(), FOUR, 3, FOUR_ENDS, 4)?);
    assert!(rt; comes_apart_to(&rt, rt.alloc(), FOUR, 4, FOUR_ENDS, 4)?);
    assert!(rt; comes_to(&rt, rt.alloc(), FOUR, 5, FOUR_ENDS)?);
    Ok(())
}

#[test]
fn two_workers_have_jobs_at_once(rt: HostRuntime) -> Result<(), Fail> {
    let gate = Meeting::new();
    let ends = ends_of(&rt, rt.alloc(), FOUR, 2, &gate)?;
    assert!(rt; are_ends(&ends, FOUR_ENDS));
    assert!(rt; gate.have_met());
    Ok(())
}

#[test]
fn no_job_is_no_work(rt: HostRuntime) -> Result<(), Fail> {
    assert!(rt; comes_to(&rt, rt.alloc(), "batch 1\nend\n", 1, "")?);
    assert!(rt; comes_to(&rt, rt.alloc(), "batch 1\nend\n", 4, "")?);
    Ok(())
}
