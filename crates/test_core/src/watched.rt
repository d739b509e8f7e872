//! A reader beside workers who wait for it.

ghost use Rattle.std.specs.Prelude.{◌≡◌};
ghost use Rattle.metered_pool.specs.Metered.{IsLevel, IsOf};

use crate::programs::net_of;
use branch_runs::OnNet;
use gate_workers::{Gate, drive};
use metered_pool::{MeteredPool, Watched};
use progress_meter::{Reader, Writer, meter};
use std::alloc::{AllocError, Global};
use std::marker::Brand;
use std::sync::Wait;
use std::sync::atomic::{AtomicBool, Ordering};
use std::test::Fail;
use std::thread;
use std::thread::{Threads, join};
use token_pool::PoolState;

/// How often something is tried, since no wait is to last for ever.
const TURNS: u32 = 1_000_000;

/// Holds each worker that has booked until something other than 0 was read.
#[derive(Drop)]
struct Held {
    read: AtomicBool,
}

impl Gate for Held {
    fn between(&self, _worker: u32, turn: u64) {
        if turn == 0 {
            return;
        }
        for _n in 0..TURNS {
            if self.read.load(Ordering::SeqCst) {
                return;
            }
            thread::yield_now();
        }
    }
}

/// Reads until a number other than 0 is met, lets the workers go, and answers the number.
fn meet<R: Wait>(rt: &R, mut reader: Reader, gate: &Held) -> u64 {
    for _n in 0..TURNS {
        let met = reader.read(rt);
        if met > 0 {
            gate.read.store(true, Ordering::SeqCst);
            return met;
        }
        thread::yield_now();
    }
    0
}

/// Two workers drive the bench, and wait at the gate.
fn drive_two<'a, 'n, M: Watched + Send + Sync, N: OnNet + Send + Sync, R: Threads + Wait + Sync>(
    rt: &R,
    alloc: Global,
    bench: MeteredPool<'a, 'n, M, N, R>,
    gate: &Held,
) -> MeteredPool<'a, 'n, M, N, R> {
    let tool = bench.tool();
    drive(rt, alloc, bench, &tool, 2, gate)
}

/// What the reader met beside two workers, and what is booked and published when they are over.
fn met_beside<'n, M: Watched + Send + Sync, N: OnNet + Send + Sync, R: Threads + Wait + Sync>(
    rt: &R,
    alloc: Global,
    pool: PoolState<'n>,
    writer: Writer,
    reader: Reader,
) -> (u64, u32, u64)
    requires of_net { pool.net ≡ N.net }
    requires level { IsLevel (record { pool = pool; writer = writer }) }
    requires run { IsOf M.run (record { pool = pool; writer = writer }) }
{
    let bench: MeteredPool<'_, 'n, M, N, R> = MeteredPool::new(rt, pool, writer);
    let gate = Held {
        read: AtomicBool::new(false),
    };
    let (bench, met) = join(
        rt,
        || drive_two(rt, alloc, bench, &gate),
        || meet(rt, reader, &gate),
    );
    let (pool, writer) = bench.into_parts();
    (met, pool.booked(), writer.last())
}

/// The same with a new pool for the double of 3, and a new meter.
fn met_by_the_double<R: Threads + Wait + Sync>(
    rt: &R,
    alloc: Global,
) -> Result<(u64, u32, u64), AllocError> {
    let net = net_of(alloc, "(fun x:nat. x + x) 3")?;
    let pool = PoolState::start(alloc, &net, 10_000, 2)?;
    let (writer, reader) = meter(alloc)?;
    Ok(met_beside::<Brand, Brand, R>(rt, alloc, pool, writer, reader))
}

#[test]
fn a_reader_meets_a_length_before_the_last(rt: HostRuntime) -> Result<(), Fail> {
    let (met, booked, published) = met_by_the_double(&rt, rt.alloc())?;
    assert!(rt; 1 <= met && met <= 29);
    assert_eq!(rt; booked, 30);
    assert_eq!(rt; published, 30);
    Ok(())
}
