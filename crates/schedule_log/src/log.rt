//! The log of a run.

ghost use Rattle.std.specs.Prelude.{◌≡◌, ◌+◌, ◌<◌, ◌≤◌, ◌^◌, length, replicate, IfOk};
ghost use Rattle.schedule_log.specs.KeptRuns.{Apart, Each, spread};
ghost use Rattle.schedule_log.specs.Logs.{tickets_in_log};
ghost use Rattle.schedule_log.specs.LogsSeen.{Small, empty_log, ticket_at, with_entries, with_entry, worker_at};
ghost use Rattle.schedule_log.specs.Tally.{tally_of};

use crate::moves::Moves;
use crate::runs::{add, count_worker, ticket_in, worker_in};
use std::alloc::{AllocError, Global};
use std::marker::Model;

/// The moves of a run, in order, each with its ticket and its worker, and for how many there is room.
///
/// Equal moves that follow one another are one run in 8 bytes, up to `MOST_COUNT` of them. Neighbouring runs differ in ticket or worker, or
/// the first of them is full, so that there are no other runs of the same moves (`law_one_way_to_run`). Room is taken for the case that
/// each move differs from the one before it; what isn't used of it is never written.
#[derive(Drop)]
pub struct Log {
    runs: Vec<Moves>,
    count: u32,
}

impl Model for Log {
    ghost use Rattle.std.specs.Prelude.{◌≡◌, ◌<◌, ◌≤◌, ◌^◌, length, vec_capacity};
    ghost use Rattle.schedule_log.specs.LogsSeen.{LogSeen, Small};
    ghost use Rattle.schedule_log.specs.KeptRuns.{spread, Apart, Each};
    ghost use Rattle.schedule_log.specs.Logs.{tickets_in_log};

    ghost Value = { LogSeen };

    // The room is that of the block, which is taken at once and stays: what is seen of it is what was taken.
    ghost view = { λ l. record { entries = spread l.runs.items; room = vec_capacity l.runs } };

    ghost invariant = { λ l. (vec_capacity l.runs < 2 ^ 32) × (l.count ≡ length (spread l.runs.items)) ×
        (length (spread l.runs.items) ≤ vec_capacity l.runs) × Each l.runs.items ×
        Apart l.runs.items × Small (tickets_in_log (spread l.runs.items)) };
}

impl Log {
    /// An empty log with room for so many moves, which it takes at once.
    ///
    /// # Errors
    ///
    /// It runs out of memory.
    pub fn with_room(alloc: Global, room: u32) -> Result<Log, AllocError>
        ensures { IfOk result (λ log. log ≡ empty_log room) }
    {
        Ok(Log {
            runs: Vec::with_capacity(alloc, room as usize)?,
            count: 0,
        })
    }

    /// Adds so many moves of one ticket, all by one worker, behind the others. It takes no memory.
    pub fn push_many(&mut self, ticket: u32, worker: u32, count: u32)
        requires worker { worker < 256 }
        requires room { length self.old.entries + count ≤ self.old.room }
        ensures { self.new ≡ with_entries self.old (replicate count (record { ticket = ticket; worker = worker })) }
    {
        if count > 0 {
            add(&mut self.runs, ticket, worker, count);
            self.count += count;
        }
    }

    /// Adds a move behind the others. It takes no memory.
    pub fn push(&mut self, ticket: u32, worker: u32)
        requires worker { worker < 256 }
        requires room { length self.old.entries < self.old.room }
        ensures { self.new ≡ with_entry self.old (record { ticket = ticket; worker = worker }) }
    {
        self.push_many(ticket, worker, 1);
    }

    /// How many moves there are.
    pub fn len(&self) -> u32
        ensures { result ≡ length self.now.entries }
    {
        self.count
    }

    /// The moves as runs of equal moves, in order: each has a move, and neighbours differ in ticket or worker, or the first
    /// of them is full.
    pub fn runs(&self) -> &[Moves]
        ensures value { spread result.now ≡ self.now.entries }
        ensures few { length (spread result.now) < 2 ^ 32 }
        ensures each { Each result.now }
        ensures apart { Apart result.now }
        ensures small { Small (tickets_in_log self.now.entries) }
    {
        &self.runs
    }

    /// The ticket of the move at this place, from 0; there is none exactly past the end.
    pub fn ticket(&self, i: u32) -> Option<u32>
        ensures { result ≡ ticket_at self.now.entries i }
    {
        ticket_in(self.runs(), i)
    }

    /// The worker of the move at this place, from 0; there is none exactly past the end.
    pub fn worker(&self, i: u32) -> Option<u32>
        ensures { result ≡ worker_at self.now.entries i }
    {
        worker_in(self.runs(), i)
    }

    /// How many moves this worker booked.
    pub fn tally_of(&self, worker: u32) -> u32
        ensures { result ≡ tally_of self.now.entries worker }
    {
        count_worker(self.runs(), worker)
    }

    /// Another log with the same moves and the same room.
    ///
    /// # Errors
    ///
    /// It runs out of memory.
    pub fn copy(&self, alloc: Global) -> Result<Log, AllocError>
        ensures { IfOk result (λ log. log ≡ self.now) }
    {
        let mut log = Log::with_room(alloc, self.runs.capacity() as u32)?;
        push_all(&mut log, self.runs());
        Ok(log)
    }
}

/// Adds the moves of these runs.
fn push_all(log: &mut Log, runs: &[Moves])
    requires { length log.old.entries + length (spread runs.now) ≤ log.old.room }
    ensures { log.new ≡ with_entries log.old (spread runs.now) }
{
    for run in runs {
        log.push_many(run.ticket(), run.worker(), run.count());
    }
}
