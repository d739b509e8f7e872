//! Runs of equal moves, and what is added behind them.

ghost use Rattle.std.specs.Prelude.{◌≡◌, ◌+◌, ◌<◌, ◌≤◌, ◌^◌, ◌++◌, ◌-◌, length, replicate, vec_len, vec_capacity, IfSome, IfNone};
ghost use Rattle.schedule_log.specs.KeptRuns.{spread, Apart, Each, IsHeld};
ghost use Rattle.schedule_log.specs.Logs.{tickets_in_log};
ghost use Rattle.schedule_log.specs.LogsSeen.{ticket_at, worker_at, Small};
ghost use Rattle.schedule_log.specs.Tally.{tally_of};

use crate::moves::{Held, MOST_COUNT, Moves};

/// Adds so many moves behind the others. There is room for a run of each, so it takes no memory.
pub fn add(runs: &mut Vec<Moves>, ticket: u32, worker: u32, count: u32)
    requires worker { worker < 256 }
    requires each { Each runs.old.items }
    requires apart { Apart runs.old.items }
    requires small { Small (tickets_in_log (spread runs.old.items)) }
    requires few { vec_capacity runs.old < 2 ^ 32 }
    requires room { length (spread runs.old.items) + count ≤ vec_capacity runs.old }
    ensures moves { spread runs.new.items ≡ spread runs.old.items ++ replicate count (record { ticket = ticket; worker = worker }) }
    ensures capacity { vec_capacity runs.new ≡ vec_capacity runs.old }
    ensures each { Each runs.new.items }
    ensures apart { Apart runs.new.items }
    ensures small { Small (tickets_in_log (spread runs.new.items)) }
{
    let mut left = count;
    while left > 0 {
        left = add_piece(runs, ticket, worker, left);
    }
}

/// Adds some of so many moves behind the others: to the last run, where it is one of these moves and isn't full, and else as a run of
/// their own, for which there is room. The answer is how many are left.
fn add_piece(runs: &mut Vec<Moves>, ticket: u32, worker: u32, count: u32) -> u32
    requires some { 1 ≤ count }
    requires worker { worker < 256 }
    requires each { Each runs.old.items }
    requires apart { Apart runs.old.items }
    requires small { Small (tickets_in_log (spread runs.old.items)) }
    requires few { vec_capacity runs.old < 2 ^ 32 }
    requires room { length (spread runs.old.items) + count ≤ vec_capacity runs.old }
    ensures less { result < count }
    ensures moves { spread runs.new.items ≡
        spread runs.old.items ++ replicate (count - result) (record { ticket = ticket; worker = worker }) }
    ensures capacity { vec_capacity runs.new ≡ vec_capacity runs.old }
    ensures each { Each runs.new.items }
    ensures apart { Apart runs.new.items }
    ensures small { Small (tickets_in_log (spread runs.new.items)) }
{
    let n = runs.len();
    if n > 0 {
        let last = runs[n - 1];
        let has = last.count();
        if last.ticket() == ticket && last.worker() == worker && has < MOST_COUNT {
            let more = at_most(count, MOST_COUNT - has);
            runs[n - 1] = Moves::new(ticket, worker, has + more);
            return count - more;
        }
    }
    let more = at_most(count, MOST_COUNT);
    runs.push_reserved(Moves::new(ticket, worker, more));
    count - more
}

/// The lesser number.
fn at_most(a: u32, b: u32) -> u32
    ensures first { result ≤ a }
    ensures second { result ≤ b }
    ensures some { 1 ≤ a → 1 ≤ b → 1 ≤ result }
{
    if a < b { a } else { b }
}

/// How many of the moves this worker booked.
pub fn count_worker(runs: &[Moves], worker: u32) -> u32
    requires { length (spread runs.now) < 2 ^ 32 }
    ensures { result ≡ tally_of (spread runs.now) worker }
{
    let mut count = 0u32;
    for run in runs {
        if run.worker() == worker {
            count += run.count();
        }
    }
    count
}

/// The run that holds the move at this place, from 0, and where it begins; there is none exactly past the end.
pub fn run_at(runs: &[Moves], place: u32) -> Option<Held>
    ensures held { IfSome result (λ h. IsHeld runs.now place h.run h.begins) }
    ensures none { IfNone result (length (spread runs.now) ≤ place) }
{
    let mut left = place;
    for run in runs {
        if left < run.count() {
            return Some(Held {
                run: *run,
                begins: place - left,
            });
        }
        left -= run.count();
    }
    None
}

/// The ticket of the move at this place, from 0; there is none exactly past the end.
#[tactic(auto, using(crate::proofs::Holding::ticket_held, crate::proofs::Holding::ticket_past))]
pub fn ticket_in(runs: &[Moves], place: u32) -> Option<u32>
    ensures { result ≡ ticket_at (spread runs.now) place }
{
    match run_at(runs, place) {
        Some(held) => Some(held.run.ticket()),
        None => None,
    }
}

/// The worker of the move at this place, from 0; there is none exactly past the end.
#[tactic(auto, using(crate::proofs::Holding::worker_held, crate::proofs::Holding::worker_past))]
pub fn worker_in(runs: &[Moves], place: u32) -> Option<u32>
    ensures { result ≡ worker_at (spread runs.now) place }
{
    match run_at(runs, place) {
        Some(held) => Some(held.run.worker()),
        None => None,
    }
}
