//! The batch as the bench of several workers.
//!
//! No command goes this way: it is the plain form, kept as the simplest statement of the protocol.

ghost use Rattle.std.specs.Prelude.{◌≡◌, IfOk, slice_get};
ghost use Rattle.batch_pool.specs.Batches.{batch_halted};
ghost use Rattle.batch_pool.specs.Benches.{MakesOn, MakesIn, turn_for, BatchGives, BatchTakesIn};

use crate::{BatchJob, BatchPiece, BatchState, BatchTaken};
use gate_workers::{Bench, Turn};
use move_rules::{Moved, walk};
use std::alloc::{AllocError, Global};
use token_pool::Piece;

/// The turn for what a worker took.
fn batch_turn_of(taken: BatchTaken) -> Turn<BatchPiece>
    ensures { result ≡ turn_for taken }
{
    match taken {
        BatchTaken::Token(job, piece) => Turn::Piece(BatchPiece { job, piece }),
        BatchTaken::Pause => Turn::Pause,
        BatchTaken::Ended | BatchTaken::Stopped => Turn::Over,
    }
}

/// The walk of a piece's token on the net of its job; without such a job it stays.
fn work_on(alloc: Global, jobs: &[BatchJob], job: u32, piece: Piece) -> Result<Moved, AllocError>
    ensures { IfOk result (MakesOn (slice_get jobs.now job) piece) }
{
    match jobs.get(job as usize) {
        Some(job) => walk(alloc, &job.net, piece.token, piece.allowance),
        None => Moved::still(alloc, piece.token),
    }
}

impl<'n> Bench for BatchState<'n> {
    type Piece = BatchPiece;

    type Made = Moved;

    type Tool = Vec<BatchJob>;

    ghost makes = { λ jobs piece made. MakesIn jobs.items piece made };

    ghost gives = { BatchGives };

    ghost takes_in = { BatchTakesIn };

    ghost halts = { λ old new. new ≡ batch_halted old };

    fn turn(&mut self, worker: u32) -> Result<Turn<BatchPiece>, AllocError> {
        if !self.has_place(worker) {
            return Ok(Turn::Over);
        }
        Ok(batch_turn_of(self.take(worker)?))
    }

    fn work(alloc: Global, tool: &Vec<BatchJob>, piece: BatchPiece) -> Result<Moved, AllocError>
        ensures { IfOk result (MakesIn tool.now.items piece) }
    {
        work_on(alloc, tool, piece.job, piece.piece)
    }

    fn hand_in(&mut self, worker: u32, made: Moved) -> Result<(), AllocError> {
        if self.has_place(worker) {
            self.book(worker, made)?;
        } else {
            drop(made);
        }
        Ok(())
    }

    fn stop(&mut self) {
        BatchState::stop(self);
    }

    fn spare(&self) -> u32 {
        self.spare_pieces()
    }
}
