//! A gate that counts, and one at which workers meet.

use gate_workers::Gate;
use std::alloc::{AllocError, Global};
use std::sync::atomic::{AtomicU64, Ordering};
use std::thread;

/// Counts its calls, and those whose turn isn't the number of the worker's calls before.
#[derive(Drop)]
pub struct Counting {
    calls: AtomicU64,
    wrong: AtomicU64,
    turns: Vec<AtomicU64>,
}

impl Counting {
    /// No calls yet, of so many workers.
    ///
    /// # Errors
    ///
    /// `AllocError` where there is no memory for a count of each worker.
    pub fn new(alloc: Global, workers: u32) -> Result<Counting, AllocError> {
        let mut turns = Vec::new(alloc);
        for _n in 0..workers {
            turns.push(AtomicU64::new(0))?;
        }
        Ok(Counting {
            calls: AtomicU64::new(0),
            wrong: AtomicU64::new(0),
            turns,
        })
    }

    /// How many calls there were.
    pub fn calls(&self) -> u64 {
        self.calls.load(Ordering::SeqCst)
    }

    /// How many calls had another turn than the number of the worker's calls before, or a worker that isn't there.
    pub fn wrong_turns(&self) -> u64 {
        self.wrong.load(Ordering::SeqCst)
    }
}

impl Gate for Counting {
    fn between(&self, worker: u32, turn: u64) {
        self.calls.fetch_add(1, Ordering::SeqCst);
        let right = match self.turns.get(worker as usize) {
            Some(turns) => turns.fetch_add(1, Ordering::SeqCst) == turn,
            None => false,
        };
        if !right {
            self.wrong.fetch_add(1, Ordering::SeqCst);
        }
    }
}

/// Lets one of two workers wait for the other until both are inside at once.
///
/// Of the two that met, the one that waited goes on when the one that came in calls again, and that next call returns when the one that
/// waited calls again. All other calls return at once. No wait lasts for ever.
#[derive(Drop)]
pub struct Meeting {
    /// How many workers are inside and look for each other.
    inside: AtomicU64,
    /// How many meetings there were.
    met: AtomicU64,
    /// How often each worker called.
    first: AtomicU64,
    second: AtomicU64,
    /// Which worker came in, and how often it and the one that waited had called at the meeting.
    comer: AtomicU64,
    comer_calls: AtomicU64,
    waiter_calls: AtomicU64,
}

/// Waits until the count is above what was seen of it, but not for ever.
fn wait_above(count: &AtomicU64, seen: u64) {
    for _n in 0..1_000_000 {
        if count.load(Ordering::SeqCst) > seen {
            break;
        }
        thread::yield_now();
    }
}

impl Meeting {
    /// Nobody came.
    pub fn new() -> Meeting {
        Meeting {
            inside: AtomicU64::new(0),
            met: AtomicU64::new(0),
            first: AtomicU64::new(0),
            second: AtomicU64::new(0),
            comer: AtomicU64::new(0),
            comer_calls: AtomicU64::new(0),
            waiter_calls: AtomicU64::new(0),
        }
    }

    /// Whether two workers were inside at once.
    pub fn have_met(&self) -> bool {
        self.met.load(Ordering::SeqCst) > 0
    }

    /// How often worker 0 called.
    pub fn calls_of_first(&self) -> u64 {
        self.first.load(Ordering::SeqCst)
    }

    /// How often another worker than worker 0 called.
    pub fn calls_of_second(&self) -> u64 {
        self.second.load(Ordering::SeqCst)
    }

    /// The calls of a worker.
    fn calls(&self, worker: u32) -> &AtomicU64 {
        if worker == 0 {
            &self.first
        } else {
            &self.second
        }
    }

    /// The calls of the other worker.
    fn other_calls(&self, worker: u32) -> &AtomicU64 {
        if worker == 0 {
            &self.second
        } else {
            &self.first
        }
    }

    /// Remembers that this worker came in while the other one waited.
    fn meet(&self, worker: u32) {
        self.comer.store(u64::from(worker), Ordering::SeqCst);
        self.comer_calls.store(self.calls(worker).load(Ordering::SeqCst), Ordering::SeqCst);
        self.waiter_calls.store(
            self.other_calls(worker).load(Ordering::SeqCst),
            Ordering::SeqCst,
        );
        self.met.store(1, Ordering::SeqCst);
    }

    /// Waits for the other worker, and after a meeting until it calls again.
    fn wait(&self, worker: u32) {
        wait_above(&self.met, 0);
        if self.have_met() {
            wait_above(
                self.other_calls(worker),
                self.comer_calls.load(Ordering::SeqCst),
            );
        }
    }

    /// Whether this call, of that number, is the next of the worker that came in.
    fn is_next(&self, worker: u32, before: u64) -> bool {
        self.comer.load(Ordering::SeqCst) == u64::from(worker)
            && self.comer_calls.load(Ordering::SeqCst) == before
    }
}

impl Gate for Meeting {
    fn between(&self, worker: u32, _turn: u64) {
        let before = self.calls(worker).fetch_add(1, Ordering::SeqCst);
        if self.have_met() {
            if self.is_next(worker, before) {
                wait_above(
                    self.other_calls(worker),
                    self.waiter_calls.load(Ordering::SeqCst),
                );
            }
            return;
        }
        if self.inside.fetch_add(1, Ordering::SeqCst) > 0 {
            self.meet(worker);
        } else {
            self.wait(worker);
        }
        self.inside.fetch_sub(1, Ordering::SeqCst);
    }
}
