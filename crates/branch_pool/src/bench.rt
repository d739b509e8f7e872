//! The pool as a bench.

ghost use Rattle.std.specs.Prelude.{◌≡◌, ◌<◌, ◌≤◌, IfOk, OnErr};
ghost use Rattle.interleave_laws.specs.Maps.{MapState};
ghost use Rattle.token_pool.specs.declared.entries.Reply.{Reply};
ghost use Rattle.token_pool.specs.Pieces.{Hands};
ghost use Rattle.token_pool.specs.Branches.{HandsSeed};
ghost use Rattle.token_pool.specs.Booking.{halted};
ghost use Rattle.branch_pool.specs.Benches.{MakesBranch, TurnFor, GivesBranch, TakesBranch};

use crate::BranchPiece;
use branch_runs::{Branch, NamedNet, OnNet, Seed, branch_of};
use gate_workers::{Bench, Turn};
use std::alloc::{AllocError, Global};
use std::marker::{Model, PhantomData};
use token_pool::{PoolState, Taken};

/// A pool of a run of the net that `N` names. Contracts see the pool.
#[derive(Drop)]
pub struct BranchPool<'n, N: OnNet> {
    pool: PoolState<'n>,
    name: PhantomData<N>,
}

impl<'n, N: OnNet> Model for BranchPool<'n, N> {
    ghost use Rattle.std.specs.Prelude.{◌≡◌};
    ghost use Rattle.token_pool.specs.Pools.{Pool};
    ghost use Rattle.token_pool.specs.Codes.{pool_code};

    ghost Value = { Pool };

    ghost coded = { pool_code };

    ghost view = { λ b. b.pool };

    ghost invariant = { λ b. b.pool.net ≡ N.net };
}

impl<'n, N: OnNet> BranchPool<'n, N> {
    /// The bench of this pool. Takes no memory.
    pub fn new(pool: PoolState<'n>) -> BranchPool<'n, N>
        requires { pool.net ≡ N.net }
        ensures { result ≡ pool.entry }
    {
        BranchPool {
            pool,
            name: PhantomData,
        }
    }

    /// The pool. Takes no memory.
    pub fn pool(&self) -> &PoolState<'n>
        ensures { result.now ≡ self.now }
    {
        &self.pool
    }

    /// The tool for its workers: the pool's own net, under the name that the type has. Takes no memory.
    pub fn tool(&self) -> NamedNet<'n, N>
        ensures { result ≡ N.net }
    {
        NamedNet::new(self.pool.net())
    }

    /// Hands the pool out. Takes no memory.
    pub fn into_pool(self) -> PoolState<'n>
        ensures pool { result ≡ self.entry }
        ensures named { result.net ≡ N.net }
    {
        let BranchPool { pool, .. } = self;
        pool
    }
}

/// The turn for what a worker was handed.
fn branch_turn_of<N: OnNet>(taken: Taken, plain: bool) -> Turn<BranchPiece<N>>
    requires { HandsSeed N.net taken }
    ensures { (S : MapState) (told : Reply) → Hands S told taken → TurnFor S plain told result }
{
    match taken {
        Taken::Token(piece) => {
            let seed = Seed::new(piece.token);
            Turn::Piece(BranchPiece::new(seed, piece.allowance, plain))
        }
        Taken::Idle | Taken::Reserved => Turn::Pause,
        Taken::Ended | Taken::Stopped => Turn::Over,
    }
}

/// What a worker of a pool of the net that `N` names is to do.
///
/// # Errors
///
/// It runs out of memory, and the pool is as it was.
pub fn turn_in<N: OnNet>(
    pool: &mut PoolState<'_>,
    worker: u32,
) -> Result<Turn<BranchPiece<N>>, AllocError>
    requires { pool.old.net ≡ N.net }
    ensures ok { IfOk result (λ turn. GivesBranch pool.old worker turn pool.new) }
    ensures err { OnErr result (pool.new ≡ pool.old) }
{
    if !pool.has_place(worker) {
        return Ok(Turn::Over);
    }
    let plain = pool.plays_plain();
    Ok(branch_turn_of::<N>(pool.take_branch(worker)?, plain))
}

/// The branch of a piece, on the net that `N` names.
///
/// # Errors
///
/// It runs out of memory.
pub fn play_piece<N: OnNet>(
    alloc: Global,
    tool: &NamedNet<'_, N>,
    piece: BranchPiece<N>,
) -> Result<Branch<N>, AllocError>
    ensures { IfOk result (MakesBranch N.net piece) }
{
    let most = piece.allowance();
    let plain = piece.is_plain();
    let branch = branch_of(alloc, tool, piece.into_seed(), most, plain)?;
    Ok(branch)
}

/// Books the branch that a worker made, in a pool of the net that `N` names. A worker that has no place changes nothing.
///
/// # Errors
///
/// It runs out of memory, and the pool is as it was.
pub fn take_in<N: OnNet>(
    pool: &mut PoolState<'_>,
    worker: u32,
    made: Branch<N>,
) -> Result<(), AllocError>
    requires { pool.old.net ≡ N.net }
    ensures ok { IfOk result (λ _. TakesBranch pool.old worker made pool.new) }
    ensures err { OnErr result (pool.new ≡ pool.old) }
{
    if pool.has_place(worker) {
        pool.book_branch(worker, made)?;
    }
    Ok(())
}

impl<'n, N: OnNet + Send + Sync> Bench for BranchPool<'n, N> {
    type Piece = BranchPiece<N>;

    type Made = Branch<N>;

    type Tool = NamedNet<'n, N>;

    // The tool is the net that the type names.
    ghost makes = { λ tool. MakesBranch N.net };

    ghost gives = { GivesBranch };

    ghost takes_in = { TakesBranch };

    ghost halts = { λ old new. new ≡ halted old };

    fn turn(&mut self, worker: u32) -> Result<Turn<BranchPiece<N>>, AllocError> {
        turn_in(&mut self.pool, worker)
    }

    fn work(
        alloc: Global,
        tool: &NamedNet<'n, N>,
        piece: BranchPiece<N>,
    ) -> Result<Branch<N>, AllocError> {
        play_piece(alloc, tool, piece)
    }

    fn hand_in(&mut self, worker: u32, made: Branch<N>) -> Result<(), AllocError> {
        take_in(&mut self.pool, worker, made)
    }

    fn stop(&mut self) {
        self.pool.stop();
    }

    fn spare(&self) -> u32 {
        self.pool.spare_pieces()
    }
}
