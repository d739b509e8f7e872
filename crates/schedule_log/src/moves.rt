//! A run of equal moves in 8 bytes, and the run of a log that holds a place.

ghost use Rattle.std.specs.Prelude.{◌≡◌, ◌≤◌, ◌<◌};
ghost use Rattle.schedule_log.specs.KeptRuns.{most_count};

use std::marker::Model;

/// How many moves a run has at most.
pub const MOST_COUNT: u32 = 16_777_215;

/// So many moves of one ticket, all by one worker: a word for the ticket, and a word for the worker (8 bits) and the count (24 bits).
#[derive(Clone, Copy)]
pub struct Moves {
    ticket: u32,
    tail: u32,
}

impl Model for Moves {
    ghost use Rattle.std.specs.Prelude.{◌+◌, ◌*◌, ◌/◌, ◌%◌};
    ghost use Rattle.schedule_log.specs.KeptRuns.{MovesSeen};

    ghost Value = { MovesSeen };

    ghost view = { λ m. record { ticket = m.ticket; worker = m.tail / 16777216; count = m.tail % 16777216 } };

    ghost inverse = { λ s. record { ticket = s.ticket; tail = s.worker * 16777216 + s.count } };

    ghost use Rattle.schedule_log.specs.Packed.{whole};

    ghost inverse_ok = { λ a h. λ j. record { ticket = a.ticket; tail = whole a.tail j } };
}

impl Moves {
    /// The run of so many moves of this ticket, all by this worker.
    pub fn new(ticket: u32, worker: u32, count: u32) -> Moves
        requires worker { worker < 256 }
        requires count { count ≤ most_count }
        ensures { result ≡ record { ticket = ticket; worker = worker; count = count } }
    {
        Moves {
            ticket,
            tail: worker * 16_777_216 + count,
        }
    }

    /// The token's number.
    pub fn ticket(self) -> u32
        ensures { result ≡ self.ticket }
    {
        self.ticket
    }

    /// The worker's number.
    pub fn worker(self) -> u32
        ensures value { result ≡ self.worker }
        ensures few { result < 256 }
    {
        self.tail / 16_777_216
    }

    /// How many moves.
    pub fn count(self) -> u32
        ensures value { result ≡ self.count }
        ensures few { result ≤ most_count }
    {
        self.tail % 16_777_216
    }
}

/// A run of a log, and where it begins.
#[derive(Clone, Copy)]
pub struct Held {
    /// The run.
    pub run: Moves,
    /// The place of its first move, from 0.
    pub begins: u32,
}
