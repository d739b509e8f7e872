//! The state that the workers of a batch share.
//!
//! No command goes by it: it is the plain form of a batch whose workers share its jobs, kept as the simplest statement of the protocol.

ghost use Rattle.std.specs.Prelude.{◌≡◌, ◌<◌, ◌↔◌, ◌^◌, ◌-◌, min, IfOk, OnErr, IsErr, IsTrue};
ghost use Rattle.batch_pool.specs.Batches.{BatchFits, BatchGood, batch_started, batch_halted};
ghost use Rattle.batch_pool.specs.Asking.{Takes, HasTicket};
ghost use Rattle.batch_pool.specs.Booking.{BatchBooks, HoldsOtherIn};
ghost use Rattle.batch_pool.specs.Ending.{EndsEach};
ghost use Rattle.batch_pool.specs.Benches.{spare_in};

use crate::asking::{take_again, take_first};
use crate::booking::book_job;
use crate::ending::finish_jobs;
use crate::places::{forget, place_of, remember};
use crate::spare::spare_of;
use crate::starting::{free_places, start_jobs};
use crate::{BatchJob, BatchTaken};
use move_rules::Moved;
use std::alloc::{AllocError, Global};
use std::marker::Model;
use token_pool::{Booked, Ended, PoolState, law_book_keeps, law_start_good, law_take_keeps};

/// Several jobs with a pool each, and the workers that they share. Contracts see it as a batch, and every one is good: among more, a worker
/// holds a ticket in one job at most.
#[derive(Drop)]
pub struct BatchState<'n> {
    pools: Vec<PoolState<'n>>,
    workers: u32,
    stopped: bool,
    places: Vec<Option<u32>>,
    passed: usize,
    spare: u64,
}

impl<'n> Model for BatchState<'n> {
    ghost use Rattle.batch_pool.specs.Batches.{Batch};
    ghost use Rattle.batch_pool.specs.Codes.{batch_code, batch};
    ghost use Rattle.batch_pool.specs.Keeping.{Kept, Counted};

    ghost Value = { Batch };

    ghost coded = { batch_code };

    ghost view = { λ a. batch a.pools.items a.workers a.stopped };

    ghost invariant = { λ a. Kept a.pools.items a.workers a.stopped a.places.items × Counted a.pools.items a.passed a.spare };
}

impl<'n> BatchState<'n> {
    /// The batch in which the runs of these jobs begin, each job with a pool of its own. It takes all the memory that their logs will need.
    ///
    /// # Errors
    ///
    /// It runs out of memory.
    pub fn start(
        alloc: Global,
        jobs: &'n [BatchJob],
        workers: u32,
    ) -> Result<BatchState<'n>, AllocError>
        requires { BatchFits jobs.now workers }
        ensures { IfOk result (λ b. b ≡ batch_started jobs.now workers) }
    {
        law_start_good();
        let pools = start_jobs(alloc, jobs, workers)?;
        let places = free_places(alloc, workers)?;
        let spare = spare_of(&pools);
        Ok(BatchState {
            pools,
            workers,
            stopped: false,
            places,
            passed: 0,
            spare,
        })
    }

    /// Whether there is a place for a worker of this number.
    pub(crate) fn has_place(&self, worker: u32) -> bool
        ensures { IsTrue result ↔ (worker < self.now.workers) }
    {
        worker < self.workers
    }

    /// Whether the batch was stopped. Takes no memory.
    pub fn stopped(&self) -> bool
        ensures flag { result ≡ self.now.stopped }
        ensures good { BatchGood self.now }
    {
        self.stopped
    }

    /// Gives a worker that asks for work what the first of five lines says that holds, and a ticket of some job with it. After want of
    /// memory all is as before.
    ///
    /// The call goes over the jobs before the one that gives a ticket, 63 at most, but for those at the front that are over.
    ///
    /// # Errors
    ///
    /// It runs out of memory, and only where there is a ticket to hand out.
    pub fn take(&mut self, worker: u32) -> Result<BatchTaken, AllocError>
        requires { worker < self.old.workers }
        ensures ok { IfOk result (λ taken. Takes self.old worker taken self.new) }
        ensures err { OnErr result (self.new ≡ self.old) }
        ensures ample { OnErr result (HasTicket self.old.pools worker) }
        ensures workers { self.new.workers ≡ self.old.workers }
    {
        law_take_keeps();
        if self.stopped {
            return Ok(BatchTaken::Stopped);
        }
        match place_of(&self.places, worker) {
            Some(job) => {
                let piece = take_again(&mut self.pools, job, worker)?;
                Ok(BatchTaken::Token(job, piece))
            }
            None => {
                let taken = take_first(&mut self.pools, &mut self.passed, &mut self.spare, worker)?;
                remember(&mut self.places, worker, &taken);
                Ok(taken)
            }
        }
    }

    /// Books what a worker walked from the ticket that it holds, in the job of that ticket, as its pool does. The worker holds nothing
    /// afterwards. After want of memory all is as before.
    ///
    /// # Errors
    ///
    /// It runs out of memory, and only where the walk isn't taken over.
    pub fn book(&mut self, worker: u32, moved: Moved) -> Result<Booked, AllocError>
        requires { worker < self.old.workers }
        ensures ok { IfOk result (BatchBooks self.old self.new worker moved) }
        ensures err { OnErr result (self.new ≡ self.old) }
        ensures ample { OnErr result (HoldsOtherIn self.old.pools worker moved) }
        ensures workers { self.new.workers ≡ self.old.workers }
    {
        law_book_keeps();
        match place_of(&self.places, worker) {
            Some(job) => {
                let booked = book_job(&mut self.pools, &mut self.spare, job, worker, moved)?;
                self.passed = self.passed.min(job as usize);
                forget(&mut self.places, worker);
                Ok(booked)
            }
            None => {
                drop(moved);
                Ok(Booked::NothingHeld)
            }
        }
    }

    /// Stops the batch: whoever asks for work is told so. Takes no memory.
    pub fn stop(&mut self)
        ensures { self.new ≡ batch_halted self.old }
    {
        self.stopped = true;
    }

    /// For how many pieces it is worth to wake a worker.
    pub(crate) fn spare_pieces(&self) -> u32
        ensures { result ≡ min (spare_in self.now.pools) (2 ^ 32 - 1) }
    {
        self.spare.min(u32::MAX as u64) as u32
    }

    /// Finishes the jobs: a batch that was stopped has no memory left, and no ends; else each job ends as its own pool does, and a job
    /// without a pool of its own is run from its start. The least live ticket of each moves until the job's answer or budget, and its
    /// moves are written down for the number of workers.
    ///
    /// # Errors
    ///
    /// It runs out of memory, and always so where the batch was stopped.
    pub fn finish(
        self,
        alloc: Global,
        jobs: &[BatchJob],
        workers: u32,
    ) -> Result<Vec<Ended>, AllocError>
        requires { BatchFits jobs.now workers }
        ensures stopped { IsTrue self.entry.stopped → IsErr result }
        ensures ends { IfOk result (λ ends. EndsEach self.entry.pools jobs.now workers ends.items) }
    {
        let BatchState { pools, stopped, .. } = self;
        if stopped {
            return Err(AllocError);
        }
        finish_jobs(alloc, pools, jobs, workers)
    }
}
