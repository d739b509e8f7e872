//! Moves that are booked in the job of their ticket.
//!
//! No command goes this way: it is `book` of the plain form, kept as the simplest statement of the protocol.

ghost use Rattle.std.specs.Prelude.{◌≡◌, ◌<◌, IfOk, OnErr};
ghost use Rattle.token_pool.specs.declared.entries.Held.{Held};
ghost use Rattle.token_pool.specs.Pools.{Pool};
ghost use Rattle.batch_pool.specs.Batches.{IsPool, HoldsIn};
ghost use Rattle.batch_pool.specs.Booking.{HoldsOtherIn};
ghost use Rattle.batch_pool.specs.Keeping.{Spared};
ghost use Rattle.batch_pool.specs.Steps.{BooksAt, IsServing};

use crate::spare::{spare_after, spare_at};
use move_rules::Moved;
use std::alloc::AllocError;
use token_pool::{Booked, PoolState};

/// Books what a worker walked in the job of this number, in which it holds a ticket, and counts anew what is spare in all jobs.
pub(crate) fn book_job(
    pools: &mut Vec<PoolState<'_>>,
    spare: &mut u64,
    job: u32,
    worker: u32,
    moved: Moved,
) -> Result<Booked, AllocError>
    requires serving { IsServing pools.old.items worker }
    requires holds { (h : Held) × HoldsIn pools.old.items worker job h }
    requires spared { Spared pools.old.items spare.old }
    ensures ok { IfOk result (BooksAt pools.old.items worker job moved pools.new.items) }
    ensures err { OnErr result (pools.new.items ≡ pools.old.items) }
    ensures ample { OnErr result (HoldsOtherIn pools.old.items worker moved) }
    ensures spared { Spared pools.new.items spare.new }
{
    let before = spare_at(pools, job as usize);
    let booked = pools[job as usize].book(worker, moved)?;
    let now = spare_at(pools, job as usize);
    *spare = spare_after(*spare, before, now);
    Ok(booked)
}
