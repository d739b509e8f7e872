//! Pools that threads work on.

ghost use Rattle.std.specs.Prelude.{◌≤◌};
ghost use Rattle.interleave_laws.specs.Runs.{Runs};
ghost use Rattle.token_pool.specs.Pools.{InLimits};

use crate::programs::net_of;
use gate_workers::{OpenGate, drive};
use net_build::Net;
use pcf_values::Val;
use std::alloc::{AllocError, Global};
use std::sync::Wait;
use std::test::Fail;
use std::thread::Threads;
use token_pool::{Ended, PoolState};

/// What so many threads and the finisher make of a pool for so many workers.
fn driven<R: Threads + Wait + Sync>(
    rt: &R,
    alloc: Global,
    net: &Net,
    workers: u32,
    threads: u32,
) -> Result<Ended, AllocError>
    requires runs { Runs net.now }
    requires limits { InLimits 1000 workers }
    requires some { 1 ≤ threads }
{
    let pool = PoolState::start(alloc, net, 1000, workers)?;
    let pool = drive(rt, alloc, pool, net, threads, &OpenGate);
    pool.finish(alloc, net, 1000, workers)
}

/// Whether they come to this value after so many moves, none of them the finisher's.
fn comes_to<R: Threads + Wait + Sync>(
    rt: &R,
    alloc: Global,
    net: &Net,
    workers: u32,
    threads: u32,
    told: (u64, u32),
) -> Result<bool, AllocError>
    requires runs { Runs net.now }
    requires limits { InLimits 1000 workers }
    requires some { 1 ≤ threads }
{
    let ended = driven(rt, alloc, net, workers, threads)?;
    let (value, moves) = told;
    Ok(
        ended.answer == Some(Val::Number(value))
            && ended.log.len() == moves
            && ended.log.tally_of(workers) == 0,
    )
}

/// Whether the double comes to 6 in 30 moves with as many threads as the pool has workers.
fn doubles<R: Threads + Wait + Sync>(
    rt: &R,
    alloc: Global,
    workers: u32,
) -> Result<bool, AllocError>
    requires { InLimits 1000 workers }
{
    let net = net_of(alloc, "(fun x:nat. x + x) 3")?;
    comes_to(rt, alloc, &net, workers, workers, (6, 30))
}

#[test]
fn each_number_of_workers_comes_to_the_answer(rt: HostRuntime) -> Result<(), Fail> {
    assert!(rt; doubles(&rt, rt.alloc(), 1)?);
    assert!(rt; doubles(&rt, rt.alloc(), 2)?);
    assert!(rt; doubles(&rt, rt.alloc(), 4)?);
    assert!(rt; doubles(&rt, rt.alloc(), 64)?);
    Ok(())
}

/// Whether 64 workers come to the answer of a program of two moves.
fn small<R: Threads + Wait + Sync>(rt: &R, alloc: Global) -> Result<bool, AllocError> {
    let net = net_of(alloc, "3")?;
    comes_to(rt, alloc, &net, 64, 64, (3, 2))
}

/// Whether threads for which the pool has no place are sent home.
fn many<R: Threads + Wait + Sync>(rt: &R, alloc: Global) -> Result<bool, AllocError> {
    let net = net_of(alloc, "(fun x:nat. x + x) 3")?;
    comes_to(rt, alloc, &net, 2, 4, (6, 30))
}

#[test]
fn more_workers_than_moves_or_places_do_no_harm(rt: HostRuntime) -> Result<(), Fail> {
    assert!(rt; small(&rt, rt.alloc())?);
    assert!(rt; many(&rt, rt.alloc())?);
    Ok(())
}
