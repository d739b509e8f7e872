//! Pools that are played by a table, a call a row.
//!
//! `W takes T A` and `W takes WHY`: worker W gets ticket T with allowance A, or is told why it gets none. `W books N` and `W books
//! nothing`: it walks what it holds and hands it in, and N moves were booked before. `counts B H F`: so many moves are booked, tickets
//! held, and tickets free. `stop`: the pool is stopped.

ghost use Rattle.std.specs.Prelude.{◌≡◌, ◌<◌};
ghost use Rattle.interleave_laws.specs.Runs.{Runs};
ghost use Rattle.token_pool.specs.Pools.{InLimits};

use move_rules::{Kind, Moved, Token, walk};
use net_build::Net;
use std::alloc::{AllocError, Global};
use testing_gates::{cut, number};
use token_pool::{Booked, PoolState, Taken};
use token_stacks::Stacks;

/// Whether this is what a worker gets.
fn is_taken(taken: &Taken, text: &str) -> bool {
    match taken {
        Taken::Token(piece) => {
            let (ticket, allowance) = cut(text, ' ');
            piece.ticket == number(ticket) && piece.allowance == number(allowance)
        }
        Taken::Idle => text == "idle",
        Taken::Reserved => text == "reserved",
        Taken::Ended => text == "ended",
        Taken::Stopped => text == "stopped",
    }
}

/// Whether this is what a worker is told that hands something in.
pub(crate) fn is_booked(booked: Booked, text: &str) -> bool {
    match booked {
        Booked::Done(before) => before == number(text),
        Booked::NothingHeld => text == "nothing",
    }
}

/// A walk of no moves, from no live token.
pub(crate) fn nothing(alloc: Global) -> Result<Moved, AllocError> {
    let token = Token {
        wire: 0,
        up: true,
        kind: Kind::Ask,
        stacks: Stacks::empty(alloc),
    };
    Moved::still(alloc, token)
}

/// What a worker has to hand in: the walk of its piece, if it gets one.
fn made(alloc: Global, net: &Net, pool: &mut PoolState, worker: u32) -> Result<Moved, AllocError>
    requires { worker < pool.old.workers }
    ensures { pool.new.workers ≡ pool.old.workers }
{
    match pool.take(worker)? {
        Taken::Token(piece) => walk(alloc, net, piece.token, piece.allowance),
        _ => nothing(alloc),
    }
}

/// Whether a worker takes so.
fn takes(pool: &mut PoolState, worker: u32, text: &str) -> Result<bool, AllocError>
    requires { worker < pool.old.workers }
    ensures { pool.new.workers ≡ pool.old.workers }
{
    let taken = pool.take(worker)?;
    Ok(is_taken(&taken, text))
}

/// Whether what a worker hands in is booked so.
fn hands_in(pool: &mut PoolState, worker: u32, moved: Moved, text: &str) -> Result<bool, AllocError>
    requires { worker < pool.old.workers }
    ensures { pool.new.workers ≡ pool.old.workers }
{
    let booked = pool.book(worker, moved)?;
    Ok(is_booked(booked, text))
}

/// Whether a worker that holds nothing hands something in so.
fn hands_in_nothing(alloc: Global, pool: &mut PoolState, worker: u32) -> Result<bool, AllocError>
    requires { worker < pool.old.workers }
    ensures { pool.new.workers ≡ pool.old.workers }
{
    let moved = nothing(alloc)?;
    hands_in(pool, worker, moved, "nothing")
}

/// Whether a worker books so.
fn books(
    alloc: Global,
    net: &Net,
    pool: &mut PoolState,
    worker: u32,
    text: &str,
) -> Result<bool, AllocError>
    requires { worker < pool.old.workers }
    ensures { pool.new.workers ≡ pool.old.workers }
{
    if text == "nothing" {
        return hands_in_nothing(alloc, pool, worker);
    }
    let moved = made(alloc, net, pool, worker)?;
    hands_in(pool, worker, moved, text)
}

/// Whether the pool has these counts.
fn counts(pool: &PoolState, text: &str) -> bool {
    let (booked, rest) = cut(text, ' ');
    let (held, free) = cut(rest, ' ');
    pool.booked() == number(booked)
        && pool.held_count() == number(held)
        && pool.free_count() == number(free)
}

/// Whether the row of a worker is so.
fn works_so(
    alloc: Global,
    net: &Net,
    pool: &mut PoolState,
    worker: u32,
    row: &str,
) -> Result<bool, AllocError>
    requires { worker < pool.old.workers }
    ensures { pool.new.workers ≡ pool.old.workers }
{
    let (call, text) = cut(row, ' ');
    if call == "takes" {
        takes(pool, worker, text)
    } else {
        books(alloc, net, pool, worker, text)
    }
}

/// Whether a row is so.
fn is_so(
    alloc: Global,
    net: &Net,
    pool: &mut PoolState,
    workers: u32,
    row: &str,
) -> Result<bool, AllocError>
    requires { workers ≡ pool.old.workers }
    ensures { pool.new.workers ≡ pool.old.workers }
{
    let (first, rest) = cut(row, ' ');
    if first == "stop" {
        pool.stop();
        return Ok(true);
    }
    if first == "counts" {
        return Ok(counts(pool, rest));
    }
    let worker = number(first);
    if worker >= workers {
        return Ok(false);
    }
    works_so(alloc, net, pool, worker, rest)
}

/// Whether all rows are so, in turn.
fn are_so(
    alloc: Global,
    net: &Net,
    pool: &mut PoolState,
    workers: u32,
    rows: &str,
) -> Result<bool, AllocError>
    requires { workers ≡ pool.old.workers }
{
    for row in rows.lines() {
        if !is_so(alloc, net, pool, workers, row)? {
            return Ok(false);
        }
    }
    Ok(true)
}

/// Plays a pool by its table, and answers it, or none where a row isn't so.
pub(crate) fn played<'n>(
    alloc: Global,
    net: &'n Net,
    budget: u32,
    workers: u32,
    rows: &str,
) -> Result<Option<PoolState<'n>>, AllocError>
    requires runs { Runs net.now }
    requires limits { InLimits budget workers }
{
    let mut pool = PoolState::start(alloc, net, budget, workers)?;
    let so = are_so(alloc, net, &mut pool, workers, rows);
    if so == Ok(true) {
        return Ok(Some(pool));
    }
    drop(pool);
    so.map(|_| None)
}
