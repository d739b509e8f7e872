//! The run of a net, read beside its workers.

ghost use Rattle.std.specs.Prelude.{◌≡◌, ◌≤◌, [], ◌∷◌, length, All, IfOk, OnOk};
ghost use Rattle.std.specs.List.Sorted.{IsNonDecreasing};
ghost use Rattle.pcf_values.specs.Most.{most_budget, most_workers};
ghost use Rattle.interleave_laws.specs.Runs.{Runs};
ghost use Rattle.progress_meter.specs.Meters.{first_publisher, first_listener};
ghost use Rattle.progress_meter.specs.Last.{last_of};
ghost use Rattle.token_pool.specs.Pools.{InLimits};
ghost use Rattle.token_pool.specs.Ending.{Suits};
ghost use Rattle.net_runs.specs.IsRun.{IsRun, IsFirstWorkers};
ghost use Rattle.metered_pool.specs.Metered.{IsLevel, IsOf};
ghost use Rattle.metered_pool.specs.Progress.{IsProgress};
ghost use Rattle.metered_pool.specs.Readings.{HasRead};
ghost use Rattle.metered_pool.specs.Walking.{WalksAlone};

use crate::alone::walk_alone;
use crate::pace::{Pace, Running};
use crate::{MeteredPool, Watched};
use branch_runs::OnNet;
use gate_workers::{Gate, drive};
use net_build::Net;
use progress_meter::{Reader, Writer, meter};
use std::alloc::{AllocError, Global};
use std::marker::Brand;
use std::sync::Wait;
use std::thread::{Threads, join};
use token_pool::{Ended, PoolState};

/// The run of a net by so many workers within a budget of moves, as `run_net` answers it, and 17 numbers: 16 readings of how many moves
/// were booked, taken beside the workers, and the number of moves that were made in the end.
///
/// One worker walks in place, with no lock and no gate, and publishes how many moves it has made after each thousand or so; its log names
/// worker 0. Several share a pool as those of `run_net` do, and each booking is published. The readings are taken in a thread of their own,
/// the first after 0.1 ms and each after twice the pause of the one before, and at once when the workers are over. Where no thread can be
/// had they are taken then. Memory for the whole log is taken at once.
///
/// # Errors
///
/// It runs out of memory.
pub fn watch_net<R: Threads + Wait + Sync, G: Gate>(
    rt: &R,
    alloc: Global,
    net: &Net,
    budget: u32,
    workers: u32,
    gate: &G,
) -> Result<(Ended, Vec<u64>), AllocError>
    requires runs { Runs net.now }
    requires budget { (1 ≤ budget) × (budget ≤ most_budget) }
    requires workers { (1 ≤ workers) × (workers ≤ most_workers) }
    ensures run { IfOk result (λ r. IsRun net.now workers budget r.0.answer r.0.log.entries) }
    ensures alone { IfOk result (λ r. workers ≡ 1 → IsFirstWorkers net.now budget r.0.log.entries) }
    ensures progress { IfOk result (λ r. IsProgress (length r.0.log.entries) r.1.items) }
{
    let (ended, readings) = read_beside(rt, alloc, net, budget, workers, gate)?;
    let mut numbers = readings;
    numbers.push(u64::from(ended.log.len()))?;
    Ok((ended, numbers))
}

/// The run, and the 16 readings.
fn read_beside<R: Threads + Wait + Sync, G: Gate>(
    rt: &R,
    alloc: Global,
    net: &Net,
    budget: u32,
    workers: u32,
    gate: &G,
) -> Result<(Ended, Vec<u64>), AllocError>
    requires runs { Runs net.now }
    requires limits { InLimits budget workers }
    ensures run { IfOk result (λ r. IsRun net.now workers budget r.0.answer r.0.log.entries) }
    ensures alone { IfOk result (λ r. workers ≡ 1 → IsFirstWorkers net.now budget r.0.log.entries) }
    ensures many { IfOk result (λ r. length r.1.items ≡ 16) }
    ensures never_down { IfOk result (λ r. IsNonDecreasing r.1.items) }
    ensures booked { IfOk result (λ r. All (λ n. n ≤ length r.0.log.entries) r.1.items) }
{
    if workers == 1 {
        read_beside_one(rt, alloc, net, budget)
    } else {
        read_beside_several(rt, alloc, net, budget, workers, gate)
    }
}

/// Both ends of a new meter, and an empty list with room for what is told of it.
fn new_meter(alloc: Global) -> Result<(Writer, Reader, Vec<u64>), AllocError>
    ensures writer { IfOk result (λ m. m.0 ≡ first_publisher m.0.meter) }
    ensures reader { IfOk result (λ m. m.1 ≡ first_listener m.0.meter) }
    ensures empty { IfOk result (λ m. m.2.items ≡ []) }
{
    let readings = Vec::with_capacity(alloc, 17)?;
    let (writer, reader) = meter(alloc)?;
    Ok((writer, reader, readings))
}

/// The run of one worker, and readings on a new meter beside it.
fn read_beside_one<R: Threads + Wait + Sync>(
    rt: &R,
    alloc: Global,
    net: &Net,
    budget: u32,
) -> Result<(Ended, Vec<u64>), AllocError>
    requires runs { Runs net.now }
    requires budget { (1 ≤ budget) × (budget ≤ most_budget) }
    ensures run { IfOk result (λ r. IsRun net.now 1 budget r.0.answer r.0.log.entries) }
    ensures first { IfOk result (λ r. IsFirstWorkers net.now budget r.0.log.entries) }
    ensures many { IfOk result (λ r. length r.1.items ≡ 16) }
    ensures never_down { IfOk result (λ r. IsNonDecreasing r.1.items) }
    ensures booked { IfOk result (λ r. All (λ n. n ≤ length r.0.log.entries) r.1.items) }
{
    let (writer, reader, readings) = new_meter(alloc)?;
    let pace = Pace::new();
    let (answer, walked) = join(
        rt,
        || -> Result<(Reader, Vec<u64>), AllocError>
            requires { readings.items ≡ [] }
            ensures { IfOk result (λ r. HasRead reader r.0 r.1.items) }
        { read_all(rt, reader, readings, &pace) },
        || -> Result<(Ended, Writer), AllocError>
            requires { Runs net.now × (1 ≤ budget) × (budget ≤ most_budget) × (last_of writer.published ≡ 0) }
            ensures { IfOk result (λ r. WalksAlone net.entry.now budget writer r.0 r.1) }
        { walk_to_end(rt, alloc, net, budget, writer, pace.running()) },
    );
    let (ended, writer) = walked?;
    let (reader, readings) = answer?;
    Ok((ended, settled(rt, writer, reader, readings)))
}

/// Walks until the run is over, and says so then.
fn walk_to_end<R: Wait>(
    rt: &R,
    alloc: Global,
    net: &Net,
    budget: u32,
    writer: Writer,
    running: Running<'_>,
) -> Result<(Ended, Writer), AllocError>
    requires runs { Runs net.now }
    requires budget { (1 ≤ budget) × (budget ≤ most_budget) }
    requires level { last_of writer.published ≡ 0 }
    ensures { IfOk result (λ r. WalksAlone net.now budget writer r.0 r.1) }
{
    let walked = walk_alone(rt, alloc, net, budget, writer);
    running.end();
    walked
}

/// The run of several workers, and readings on a new meter beside them.
fn read_beside_several<R: Threads + Wait + Sync, G: Gate>(
    rt: &R,
    alloc: Global,
    net: &Net,
    budget: u32,
    workers: u32,
    gate: &G,
) -> Result<(Ended, Vec<u64>), AllocError>
    requires runs { Runs net.now }
    requires limits { InLimits budget workers }
    ensures run { IfOk result (λ r. IsRun net.now workers budget r.0.answer r.0.log.entries) }
    ensures many { IfOk result (λ r. length r.1.items ≡ 16) }
    ensures never_down { IfOk result (λ r. IsNonDecreasing r.1.items) }
    ensures booked { IfOk result (λ r. All (λ n. n ≤ length r.0.log.entries) r.1.items) }
{
    let (pool, readings) = drive_new(rt, alloc, net, budget, workers, gate)?;
    let ended = finish(alloc, pool, budget, workers)?;
    Ok((ended, readings))
}

/// Drives a new pool, and reads on a new meter.
fn drive_new<'n, R: Threads + Wait + Sync, G: Gate>(
    rt: &R,
    alloc: Global,
    net: &'n Net,
    budget: u32,
    workers: u32,
    gate: &G,
) -> Result<(PoolState<'n>, Vec<u64>), AllocError>
    requires runs { Runs net.now }
    requires limits { InLimits budget workers }
    ensures suits { IfOk result (λ r. Suits r.0 net.now budget workers) }
    ensures many { IfOk result (λ r. length r.1.items ≡ 16) }
    ensures never_down { IfOk result (λ r. IsNonDecreasing r.1.items) }
    ensures booked { IfOk result (λ r. All (λ n. n ≤ length r.0.log) r.1.items) }
{
    let (writer, reader, readings) = new_meter(alloc)?;
    let pool = PoolState::start(alloc, net, budget, workers)?;
    drive_named::<Brand, Brand, R, G>(rt, alloc, workers, gate, pool, writer, reader, readings)
}

/// Drives the pool on the net that `N` names, and reads on the meter beside.
fn drive_named<
    'n,
    M: Watched + Send + Sync,
    N: OnNet + Send + Sync,
    R: Threads + Wait + Sync,
    G: Gate,
>(
    rt: &R,
    alloc: Global,
    workers: u32,
    gate: &G,
    pool: PoolState<'n>,
    writer: Writer,
    reader: Reader,
    readings: Vec<u64>,
) -> Result<(PoolState<'n>, Vec<u64>), AllocError>
    requires of_net { pool.net ≡ N.net }
    requires some { 1 ≤ workers }
    requires level { last_of writer.published ≡ length pool.log }
    requires run { (writer.meter ≡ M.run.meter) × Suits pool M.run.net M.run.budget M.run.workers }
    requires reader { (reader.meter ≡ M.run.meter) × (reader.readings ≡ 0 ∷ []) }
    requires empty { readings.items ≡ [] }
    ensures suits { IfOk result (λ r. Suits r.0 M.run.net M.run.budget M.run.workers) }
    ensures many { IfOk result (λ r. length r.1.items ≡ 16) }
    ensures never_down { IfOk result (λ r. IsNonDecreasing r.1.items) }
    ensures booked { IfOk result (λ r. All (λ n. n ≤ length r.0.log) r.1.items) }
{
    let bench: MeteredPool<'_, 'n, M, N, R> = MeteredPool::new(rt, pool, writer);
    drive_watched(rt, alloc, workers, gate, bench, reader, readings)
}

/// Drives the bench, and reads on its meter beside. The readings never go down, and none is above the number of moves of the pool that
/// came back, which is one of the same run.
fn drive_watched<
    'a,
    'n,
    M: Watched + Send + Sync,
    N: OnNet + Send + Sync,
    R: Threads + Wait + Sync,
    G: Gate,
>(
    rt: &R,
    alloc: Global,
    workers: u32,
    gate: &G,
    bench: MeteredPool<'a, 'n, M, N, R>,
    reader: Reader,
    readings: Vec<u64>,
) -> Result<(PoolState<'n>, Vec<u64>), AllocError>
    requires some { 1 ≤ workers }
    requires reader { (reader.meter ≡ M.run.meter) × (reader.readings ≡ 0 ∷ []) }
    requires empty { readings.items ≡ [] }
    ensures suits { IfOk result (λ r. Suits r.0 M.run.net M.run.budget M.run.workers) }
    ensures many { IfOk result (λ r. length r.1.items ≡ 16) }
    ensures never_down { IfOk result (λ r. IsNonDecreasing r.1.items) }
    ensures booked { IfOk result (λ r. All (λ n. n ≤ length r.0.log) r.1.items) }
{
    let pace = Pace::new();
    let (answer, bench) = join(
        rt,
        || -> Result<(Reader, Vec<u64>), AllocError>
            requires { readings.items ≡ [] }
            ensures { IfOk result (λ r. HasRead reader r.0 r.1.items) }
        { read_all(rt, reader, readings, &pace) },
        ||
            requires { 1 ≤ workers }
        { drive_to_end(rt, alloc, bench, workers, gate, pace.running()) },
    );
    let (pool, writer) = bench.into_parts();
    match answer {
        Ok((reader, readings)) => Ok((pool, settled(rt, writer, reader, readings))),
        Err(error) => {
            drop(pool);
            Err(error)
        }
    }
}

/// Drives the bench until there is nothing to do for any worker, and says so then.
fn drive_to_end<
    'a,
    'n,
    M: Watched + Send + Sync,
    N: OnNet + Send + Sync,
    R: Threads + Wait + Sync,
    G: Gate,
>(
    rt: &R,
    alloc: Global,
    bench: MeteredPool<'a, 'n, M, N, R>,
    workers: u32,
    gate: &G,
    running: Running<'_>,
) -> MeteredPool<'a, 'n, M, N, R>
    requires { 1 ≤ workers }
{
    let tool = bench.tool();
    let bench = drive(rt, alloc, bench, &tool, workers, gate);
    running.end();
    bench
}

/// The readings of a reader that the writer has settled: they never went down, and none is above the number that was published last.
fn settled<R: Wait>(rt: &R, mut writer: Writer, reader: Reader, readings: Vec<u64>) -> Vec<u64>
    requires reader { (reader.meter ≡ writer.meter) × (reader.readings ≡ 0 ∷ readings.items) }
    ensures same { result ≡ readings }
    ensures never_down { IsNonDecreasing readings.items }
    ensures booked { All (λ n. n ≤ last_of writer.published) readings.items }
{
    writer.settle(rt, reader);
    readings
}

/// The reader after sixteen readings, and these.
fn read_all<R: Wait>(
    rt: &R,
    mut reader: Reader,
    mut readings: Vec<u64>,
    pace: &Pace,
) -> Result<(Reader, Vec<u64>), AllocError>
    requires { readings.items ≡ [] }
    ensures { IfOk result (λ r. HasRead reader r.0 r.1.items) }
{
    match push_all(rt, &mut reader, &mut readings, pace) {
        Ok(()) => Ok((reader, readings)),
        Err(error) => Err(error),
    }
}

/// Adds sixteen readings, each after twice the pause of the one before.
fn push_all<R: Wait>(
    rt: &R,
    reader: &mut Reader,
    readings: &mut Vec<u64>,
    pace: &Pace,
) -> Result<(), AllocError>
    requires { readings.old.items ≡ [] }
    ensures { OnOk result (HasRead reader.old reader.new readings.new.items) }
{
    for n in 0..16u32 {
        pace.pause(rt, 100u64 << n);
        readings.push(reader.read(rt))?;
    }
    Ok(())
}

/// Finishes the run that this pool is of. The moves go on behind those that were booked.
fn finish(
    alloc: Global,
    pool: PoolState<'_>,
    budget: u32,
    workers: u32,
) -> Result<Ended, AllocError>
    requires limits { InLimits budget workers }
    requires suits { (pool.budget ≡ budget) × (pool.workers ≡ workers) }
    ensures run { IfOk result (λ e. IsRun pool.entry.net workers budget e.answer e.log.entries) }
    ensures longer { IfOk result (λ e. length pool.entry.log ≤ length e.log.entries) }
{
    Ok(pool.finish_own(alloc, budget, workers)?)
}
