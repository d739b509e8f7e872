//! Pools whose pieces are branches, played by a table, a call of the bench a row.
//!
//! `W turn A plain` and `W turn A all`: worker W gets a piece of at most A moves, which is to be plain or not; `W turn pause` and
//! `W turn over`: it gets none. `W plays WAY N`: it plays its piece, plain or all, and hands the branch in, and then N moves are booked.
//! `W brings V WAY N`: it plays the piece of worker V and hands that branch in as its own. Who holds a ticket gets it again when it asks,
//! and is told anew whether to play it plainly; so these rows name the way.

ghost use Rattle.std.specs.Prelude.{◌≡◌};
ghost use Rattle.interleave_laws.specs.Runs.{Runs};
ghost use Rattle.token_pool.specs.Pools.{InLimits};

use crate::branches::Table;
use branch_pool::{BranchPiece, BranchPool};
use branch_runs::{Branch, NamedNet, OnNet};
use gate_workers::{Bench, Turn};
use net_build::Net;
use std::alloc::{AllocError, Global};
use std::marker::Brand;
use testing_gates::{cut, number};
use token_pool::{Ended, PoolState};

/// Whether this is the turn.
fn is_turn<N: OnNet + Send + Sync>(turn: &Turn<BranchPiece<N>>, text: &str) -> bool {
    match turn {
        Turn::Piece(piece) => {
            let (most, way) = cut(text, ' ');
            piece.allowance() == number(most) && piece.is_plain() == (way == "plain")
        }
        Turn::Pause => text == "pause",
        Turn::Over => text == "over",
    }
}

/// The branch that a worker plays of its piece, if it gets one.
fn made<N: OnNet + Send + Sync>(
    alloc: Global,
    net: &NamedNet<'_, N>,
    pool: &mut BranchPool<'_, N>,
    worker: u32,
    plain: bool,
) -> Result<Option<Branch<N>>, AllocError> {
    match pool.turn(worker)? {
        Turn::Piece(piece) => {
            let most = piece.allowance();
            let piece = BranchPiece::new(piece.into_seed(), most, plain);
            Ok(Some(BranchPool::<N>::work(alloc, net, piece)?))
        }
        _ => Ok(None),
    }
}

/// Whether so many moves are booked after a worker brought a worker's branch.
fn brings<N: OnNet + Send + Sync>(
    alloc: Global,
    net: &NamedNet<'_, N>,
    pool: &mut BranchPool<'_, N>,
    worker: u32,
    other: u32,
    text: &str,
) -> Result<bool, AllocError> {
    let (way, moves) = cut(text, ' ');
    let Some(branch) = made(alloc, net, pool, other, way == "plain")? else {
        return Ok(false);
    };
    pool.hand_in(worker, branch)?;
    Ok(pool.pool().booked() == number(moves))
}

/// Whether a row is so.
fn is_so<N: OnNet + Send + Sync>(
    alloc: Global,
    net: &NamedNet<'_, N>,
    pool: &mut BranchPool<'_, N>,
    row: &str,
) -> Result<bool, AllocError> {
    let (first, rest) = cut(row, ' ');
    let (call, text) = cut(rest, ' ');
    let worker = number(first);
    if call == "turn" {
        let turn = pool.turn(worker)?;
        Ok(is_turn(&turn, text))
    } else if call == "plays" {
        brings(alloc, net, pool, worker, worker, text)
    } else {
        let (other, played) = cut(text, ' ');
        brings(alloc, net, pool, worker, number(other), played)
    }
}

/// Whether all rows are so, in turn.
fn are_so<N: OnNet + Send + Sync>(
    alloc: Global,
    net: &NamedNet<'_, N>,
    pool: &mut BranchPool<'_, N>,
    table: Table<'_>,
) -> Result<bool, AllocError> {
    for row in table.rows.lines() {
        if !is_so(alloc, net, pool, row)? {
            return Ok(false);
        }
    }
    Ok(true)
}

/// Plays a pool by its table, and answers it, or none where a row isn't so.
fn plays_all<'n, N: OnNet + Send + Sync>(
    alloc: Global,
    net: &'n Net,
    pool: PoolState<'n>,
    table: Table<'_>,
) -> Result<Option<PoolState<'n>>, AllocError>
    requires named { net.now ≡ N.net }
    requires suits { pool.net ≡ N.net }
    requires runs { Runs N.net }
{
    let net: NamedNet<'n, N> = NamedNet::new(net);
    let mut bench: BranchPool<'n, N> = BranchPool::new(pool);
    let so = are_so(alloc, &net, &mut bench, table);
    let pool = bench.into_pool();
    if so == Ok(true) {
        return Ok(Some(pool));
    }
    drop(pool);
    so.map(|_| None)
}

/// What a pool for so many workers is finished to, after these rows; none where a row isn't so.
pub(crate) fn ended(
    alloc: Global,
    net: &Net,
    budget: u32,
    workers: u32,
    rows: &str,
) -> Result<Option<Ended>, AllocError>
    requires runs { Runs net.now }
    requires limits { InLimits budget workers }
{
    let pool = PoolState::start(alloc, net, budget, workers)?;
    match plays_all::<Brand>(alloc, net, pool, Table { rows })? {
        Some(pool) => Ok(Some(pool.finish(alloc, net, budget, workers)?)),
        None => Ok(None),
    }
}
