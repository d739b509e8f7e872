//! A list of tickets, kept as runs of one ticket.

ghost use Rattle.std.specs.Prelude.{◌≡◌, ◌+◌, ◌<◌, ◌^◌, ◌++◌, [], OnOk, OnErr, length, replicate};
ghost use Rattle.interleave_core.specs.Tickets.{spelled};

use std::alloc::{AllocError, Global};
use std::marker::Model;

/// So many moves of one ticket.
#[derive(Clone, Copy)]
pub struct Run {
    /// The ticket.
    pub ticket: u32,
    /// How many moves.
    pub count: u32,
}

/// The tickets that moved, in turn. Contracts see the list, a ticket for each move; in memory it has a run for each time that the
/// ticket changed, and at least one for each call of `add`.
#[derive(Drop)]
pub struct Tickets {
    runs: Vec<Run>,
    count: u32,
}

impl Model for Tickets {
    ghost use Rattle.std.specs.Prelude.{◌≡◌, List, ℕ, length};
    ghost use Rattle.interleave_core.specs.Tickets.{spelled};

    ghost Value = { List ℕ };

    ghost view = { λ t. spelled t.runs.items };

    ghost invariant = { λ t. t.count ≡ length (spelled t.runs.items) };
}

/// Puts a run behind others. After out of memory all is as it was.
fn push(runs: &mut Vec<Run>, ticket: u32, count: u32) -> Result<(), AllocError>
    ensures ok { OnOk result (spelled runs.new.items ≡ spelled runs.old.items ++ replicate count ticket) }
    ensures err { OnErr result (runs.new.items ≡ runs.old.items) }
{
    runs.push(Run { ticket, count })?;
    Ok(())
}

impl Tickets {
    /// No tickets. Takes no memory.
    pub fn new(alloc: Global) -> Tickets
        ensures { result ≡ [] }
    {
        Tickets {
            runs: Vec::new(alloc),
            count: 0,
        }
    }

    /// How many moves there are.
    pub fn len(&self) -> u32
        ensures { result ≡ length self.now }
    {
        self.count
    }

    /// The moves as runs, in turn.
    pub fn runs(&self) -> &[Run]
        ensures { spelled result.now ≡ self.now }
    {
        &self.runs
    }

    /// So many moves more of one ticket.
    ///
    /// # Errors
    ///
    /// It runs out of memory; the list is as it was.
    pub fn add(&mut self, ticket: u32, count: u32) -> Result<(), AllocError>
        requires { length self.old + count < 2 ^ 32 }
        ensures ok { OnOk result (self.new ≡ self.old ++ replicate count ticket) }
        ensures err { OnErr result (self.new ≡ self.old) }
    {
        push(&mut self.runs, ticket, count)?;
        self.count += count;
        Ok(())
    }
}
