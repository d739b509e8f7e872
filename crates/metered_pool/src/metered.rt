//! A pool whose bookings are published.

ghost use Rattle.std.specs.Prelude.{◌≡◌, ◌≤◌, length, IfOk, OnErr};
ghost use Rattle.progress_meter.specs.Meters.{with_number};
ghost use Rattle.progress_meter.specs.Last.{last_of};
ghost use Rattle.token_pool.specs.Ending.{Suits};
ghost use Rattle.branch_pool.specs.Benches.{TakesBranch};
ghost use Rattle.metered_pool.specs.Metered.{IsLevel, IsOf};

use branch_pool::{BranchPiece, play_piece, take_in, turn_in};
use branch_runs::{Branch, NamedNet, OnNet};
use gate_workers::{Bench, Turn};
use progress_meter::Writer;
use std::alloc::{AllocError, Global};
use std::marker::{Brand, Model, PhantomData};
use std::sync::Wait;
use token_pool::PoolState;

/// Names one watched run: its meter, net, budget and number of workers. A call that passes `Brand` picks it.
pub trait Watched {
    ghost use Rattle.metered_pool.specs.Metered.{WatchedRun};

    ghost run: { WatchedRun };
}

impl Watched for Brand {
    ghost use Rattle.metered_pool.specs.Metered.{no_run};

    ghost run = { no_run };
}

/// A pool of the run that `M` names, on the net that `N` names, and the writer of its meter. Contracts see both; the number published last
/// is the number of moves made. A call of this crate's users that makes one passes `Brand` for both names, and picks the run that it has.
#[derive(Drop)]
pub struct MeteredPool<'a, 'n, M: Watched, N: OnNet, R: Wait + Sync> {
    rt: &'a R,
    pool: PoolState<'n>,
    writer: Writer,
    run: PhantomData<M>,
    net: PhantomData<N>,
}

impl<'a, 'n, M: Watched, N: OnNet, R: Wait + Sync> Model for MeteredPool<'a, 'n, M, N, R> {
    ghost use Rattle.std.specs.Prelude.{◌≡◌};
    ghost use Rattle.metered_pool.specs.Metered.{Metered, Keeps, metered_code};

    ghost Value = { Metered };

    ghost coded = { metered_code };

    ghost view = { λ m. record { pool = m.pool; writer = m.writer } };

    ghost invariant = { λ m. Keeps M.run (record { pool = m.pool; writer = m.writer }) × (m.pool.net ≡ N.net) };
}

impl<'a, 'n, M: Watched, N: OnNet, R: Wait + Sync> MeteredPool<'a, 'n, M, N, R> {
    /// A bench that holds these three. Takes no memory.
    pub fn new(rt: &'a R, pool: PoolState<'n>, writer: Writer) -> MeteredPool<'a, 'n, M, N, R>
        requires named { pool.net ≡ N.net }
        requires level { IsLevel (record { pool = pool; writer = writer }) }
        requires run { IsOf M.run (record { pool = pool; writer = writer }) }
        ensures { result ≡ record { pool = pool.entry; writer = writer } }
    {
        MeteredPool {
            rt,
            pool,
            writer,
            run: PhantomData,
            net: PhantomData,
        }
    }

    /// The tool for its workers: the pool's own net, under the name that the type has. Takes no memory.
    pub fn tool(&self) -> NamedNet<'n, N>
        ensures { result ≡ N.net }
    {
        NamedNet::new(self.pool.net())
    }

    /// The pool and the writer. Takes no memory.
    pub fn into_parts(self) -> (PoolState<'n>, Writer)
        ensures parts { (result.0 ≡ self.entry.pool) × (result.1 ≡ self.entry.writer) }
        ensures level { last_of result.1.published ≡ length result.0.log }
        ensures meter { result.1.meter ≡ M.run.meter }
        ensures suits { Suits result.0 M.run.net M.run.budget M.run.workers }
    {
        let MeteredPool {
            rt: _,
            pool,
            writer,
            run: _,
            net: _,
        } = self;
        (pool, writer)
    }
}

/// Publishes how many moves the pool has booked.
fn tell<R: Wait>(rt: &R, pool: &PoolState<'_>, writer: &mut Writer)
    requires { last_of writer.old.published ≤ length pool.now.log }
    ensures published { writer.new ≡ with_number writer.old (length pool.now.log) }
    ensures last { last_of writer.new.published ≡ length pool.now.log }
{
    writer.publish(rt, u64::from(pool.booked()));
}

/// Has the pool take in what a worker made, and publishes how many moves it has booked then.
fn book<N: OnNet, R: Wait>(
    rt: &R,
    pool: &mut PoolState<'_>,
    writer: &mut Writer,
    worker: u32,
    made: Branch<N>,
) -> Result<(), AllocError>
    requires level { last_of writer.old.published ≡ length pool.old.log }
    requires named { pool.old.net ≡ N.net }
    ensures taken { IfOk result (λ _. TakesBranch pool.old worker made pool.new) }
    ensures published { IfOk result (λ _. writer.new ≡ with_number writer.old (length pool.new.log)) }
    ensures level { last_of writer.new.published ≡ length pool.new.log }
    ensures suits { Suits pool.new pool.old.net pool.old.budget pool.old.workers }
    ensures err { OnErr result ((pool.new ≡ pool.old) × (writer.new ≡ writer.old)) }
{
    take_in(pool, worker, made)?;
    tell(rt, pool, writer);
    Ok(())
}

impl<'a, 'n, M: Watched + Send, N: OnNet + Send + Sync, R: Wait + Sync> Bench
    for MeteredPool<'a, 'n, M, N, R> {
    type Piece = BranchPiece<N>;

    type Made = Branch<N>;

    type Tool = NamedNet<'n, N>;

    ghost use Rattle.branch_pool.specs.Benches.{MakesBranch};
    ghost use Rattle.metered_pool.specs.Metered.{Gives, Books, Halts};

    // The tool is the net that the type names.
    ghost makes = { λ tool. MakesBranch N.net };

    ghost gives = { Gives };

    ghost takes_in = { Books };

    ghost halts = { Halts };

    fn turn(&mut self, worker: u32) -> Result<Turn<BranchPiece<N>>, AllocError> {
        turn_in(&mut self.pool, worker)
    }

    fn work(
        alloc: Global,
        tool: &NamedNet<'n, N>,
        piece: BranchPiece<N>,
    ) -> Result<Branch<N>, AllocError> {
        play_piece(alloc, tool, piece)
    }

    fn hand_in(&mut self, worker: u32, made: Branch<N>) -> Result<(), AllocError> {
        let MeteredPool {
            rt,
            pool,
            writer,
            run: _,
            net: _,
        } = self;
        book(*rt, pool, writer, worker, made)
    }

    fn stop(&mut self) {
        self.pool.stop();
    }

    fn spare(&self) -> u32 {
        self.pool.spare_pieces()
    }
}
