//! Batches that are played by a table, a call a row.
//!
//! `W takes J T A` and `W takes WHY`: worker W gets ticket T of job J with allowance A, or is told why it gets none. `W books N` and
//! `W books nothing`: it walks what it holds and hands it in, and N moves of that job were booked before. `stop`: the batch is stopped.

ghost use Rattle.std.specs.Prelude.{◌≡◌, ◌<◌};
ghost use Rattle.batch_pool.specs.Batches.{BatchFits};

use crate::job_runs::are_ends;
use crate::jobs::jobs_of;
use crate::pool_games::{is_booked, nothing};
use batch_pool::{BatchJob, BatchPiece, BatchState, BatchTaken};
use gate_workers::Bench;
use move_rules::Moved;
use std::alloc::{AllocError, Global};
use std::test::Fail;
use testing_gates::{cut, number};

/// Whether this is what a worker gets.
fn is_taken(taken: &BatchTaken, text: &str) -> bool {
    match taken {
        BatchTaken::Token(job, piece) => {
            let (first, rest) = cut(text, ' ');
            let (ticket, allowance) = cut(rest, ' ');
            *job == number(first)
                && piece.ticket == number(ticket)
                && piece.allowance == number(allowance)
        }
        BatchTaken::Pause => text == "pause",
        BatchTaken::Ended => text == "ended",
        BatchTaken::Stopped => text == "stopped",
    }
}

/// What a worker has to hand in: what it makes of its piece, if it gets one.
fn made(
    alloc: Global,
    jobs: &Vec<BatchJob>,
    batch: &mut BatchState,
    worker: u32,
) -> Result<Moved, AllocError>
    requires { worker < batch.old.workers }
    ensures { batch.new.workers ≡ batch.old.workers }
{
    match batch.take(worker)? {
        BatchTaken::Token(job, piece) => BatchState::work(alloc, jobs, BatchPiece { job, piece }),
        _ => nothing(alloc),
    }
}

/// Whether a worker takes so.
fn takes(batch: &mut BatchState, worker: u32, text: &str) -> Result<bool, AllocError>
    requires { worker < batch.old.workers }
    ensures { batch.new.workers ≡ batch.old.workers }
{
    let taken = batch.take(worker)?;
    Ok(is_taken(&taken, text))
}

/// Whether what a worker hands in is booked so.
fn hands_in(
    batch: &mut BatchState,
    worker: u32,
    moved: Moved,
    text: &str,
) -> Result<bool, AllocError>
    requires { worker < batch.old.workers }
    ensures { batch.new.workers ≡ batch.old.workers }
{
    let booked = batch.book(worker, moved)?;
    Ok(is_booked(booked, text))
}

/// Whether a worker that holds nothing hands something in so.
fn hands_in_nothing(alloc: Global, batch: &mut BatchState, worker: u32) -> Result<bool, AllocError>
    requires { worker < batch.old.workers }
    ensures { batch.new.workers ≡ batch.old.workers }
{
    let moved = nothing(alloc)?;
    hands_in(batch, worker, moved, "nothing")
}

/// Whether a worker books so.
fn books(
    alloc: Global,
    jobs: &Vec<BatchJob>,
    batch: &mut BatchState,
    worker: u32,
    text: &str,
) -> Result<bool, AllocError>
    requires { worker < batch.old.workers }
    ensures { batch.new.workers ≡ batch.old.workers }
{
    if text == "nothing" {
        return hands_in_nothing(alloc, batch, worker);
    }
    let moved = made(alloc, jobs, batch, worker)?;
    hands_in(batch, worker, moved, text)
}

/// Whether the row of a worker is so.
fn works_so(
    alloc: Global,
    jobs: &Vec<BatchJob>,
    batch: &mut BatchState,
    worker: u32,
    row: &str,
) -> Result<bool, AllocError>
    requires { worker < batch.old.workers }
    ensures { batch.new.workers ≡ batch.old.workers }
{
    let (call, text) = cut(row, ' ');
    if call == "takes" {
        takes(batch, worker, text)
    } else {
        books(alloc, jobs, batch, worker, text)
    }
}

/// Whether a row is so, where two workers share the batch.
fn is_so(
    alloc: Global,
    jobs: &Vec<BatchJob>,
    batch: &mut BatchState,
    row: &str,
) -> Result<bool, AllocError>
    requires { batch.old.workers ≡ 2 }
    ensures { batch.new.workers ≡ 2 }
{
    let (first, rest) = cut(row, ' ');
    if first == "stop" {
        batch.stop();
        return Ok(true);
    }
    let worker = number(first);
    if worker >= 2 {
        return Ok(false);
    }
    works_so(alloc, jobs, batch, worker, rest)
}

/// Whether all rows are so, in turn.
fn are_so(
    alloc: Global,
    jobs: &Vec<BatchJob>,
    batch: &mut BatchState,
    rows: &str,
) -> Result<bool, AllocError>
    requires { batch.old.workers ≡ 2 }
{
    for row in rows.lines() {
        if !is_so(alloc, jobs, batch, row)? {
            return Ok(false);
        }
    }
    Ok(true)
}

/// Plays a batch of two workers by its table, and answers it, or none where a row isn't so.
fn played<'n>(
    alloc: Global,
    jobs: &'n Vec<BatchJob>,
    rows: &str,
) -> Result<Option<BatchState<'n>>, AllocError>
    requires { BatchFits jobs.now.items 2 }
{
    let mut batch = BatchState::start(alloc, jobs, 2)?;
    let so = are_so(alloc, jobs, &mut batch, rows);
    if so == Ok(true) {
        return Ok(Some(batch));
    }
    drop(batch);
    so.map(|_| None)
}

/// Whether a batch that is played so is finished for these jobs to these ends; `none` where it has none.
fn finishes(
    alloc: Global,
    first: &Vec<BatchJob>,
    rows: &str,
    jobs: &Vec<BatchJob>,
    wanted: &str,
) -> Result<bool, AllocError>
    requires first { BatchFits first.now.items 2 }
    requires jobs { BatchFits jobs.now.items 2 }
{
    let Some(batch) = played(alloc, first, rows)? else {
        return Ok(false);
    };
    let finished = batch.finish(alloc, jobs, 2);
    match finished {
        Ok(ends) => Ok(are_ends(&ends, wanted)),
        Err(_) => Ok(wanted == "none"),
    }
}

/// The same where the jobs are those of a list.
fn finishes_others(
    alloc: Global,
    first: &Vec<BatchJob>,
    rows: &str,
    other: &str,
    wanted: &str,
) -> Result<bool, AllocError>
    requires { BatchFits first.now.items 2 }
{
    let jobs = jobs_of(alloc, other)?;
    let so = finishes(alloc, first, rows, &jobs, wanted);
    drop(jobs);
    so
}

/// Whether a batch of one list that is played so is finished for the jobs of another list to these ends.
fn is_game(
    alloc: Global,
    list: &str,
    rows: &str,
    other: &str,
    wanted: &str,
) -> Result<bool, AllocError> {
    let first = jobs_of(alloc, list)?;
    finishes_others(alloc, &first, rows, other, wanted)
}

/// Two jobs: the one comes to 3 in six moves, and the other in two.
const TWO: &str = "batch 1\njob 6 1 + 2\njob 10 3\nend\n";

#[test]
fn two_jobs_in_turn(rt: HostRuntime) -> Result<(), Fail> {
    let rows = "0 takes 0 0 3
1 takes 1 0 5
1 takes 1 0 5
1 books 0
0 books 0
0 books nothing
1 takes 0 0 2
0 takes 0 1 1
1 books 1
0 books 2
0 books 3
0 takes 0 1 1
1 takes 1 0 4
1 books 1
1 takes pause
0 books 4
1 takes 0 1 1
0 takes pause
1 books 5
0 takes ended
1 takes ended
1 books nothing";
    assert!(rt; is_game(rt.alloc(), TWO, rows, TWO, "3:6 3:2")?);
    Ok(())
}

#[test]
fn the_other_order(rt: HostRuntime) -> Result<(), Fail> {
    let rows = "1 takes 0 0 3
0 takes 1 0 5
1 takes 0 0 3
1 books 0
1 takes 0 0 2
1 books 1
0 takes 1 0 5";
    assert!(rt; is_game(rt.alloc(), TWO, rows, TWO, "3:6 3:2")?);
    assert!(rt; is_game(rt.alloc(), TWO, "", TWO, "3:6 3:2")?);
    Ok(())
}

#[test]
fn a_stopped_batch_has_no_ends(rt: HostRuntime) -> Result<(), Fail> {
    let rows = "0 takes 0 0 3
stop
0 takes stopped
1 takes stopped
0 books nothing";
    assert!(rt; !is_game(rt.alloc(), TWO, rows, TWO, "none")?);
    assert!(rt;
        is_game(
            rt.alloc(),
            TWO,
            "0 takes 0 0 3\nstop\n0 takes stopped\n1 takes stopped",
            TWO,
            "none"
        )?
    );
    Ok(())
}

#[test]
fn each_end_is_of_its_own_job(rt: HostRuntime) -> Result<(), Fail> {
    let other = "batch 1\njob 10 3\njob 5 1 + 2\njob 30 (fun x:nat. x + x) 3\nend\n";
    assert!(rt;
        is_game(
            rt.alloc(),
            TWO,
            "0 takes 0 0 3\n0 books 0\n1 takes 0 0 2",
            other,
            "3:2 -:5 6:30"
        )?
    );
    assert!(rt; is_game(rt.alloc(), other, "", TWO, "3:6 3:2")?);
    assert!(rt; is_game(rt.alloc(), TWO, "", "batch 1\nend\n", "")?);
    Ok(())
}
