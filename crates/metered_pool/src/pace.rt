//! When readings are taken.

use std::sync::Wait;
use std::sync::atomic::{AtomicBool, Ordering};
use std::thread::Parker;
use std::time::Duration;

/// Spreads readings over a run: between two of them the reader sleeps, until the run is over.
#[derive(Drop)]
pub(crate) struct Pace {
    over: AtomicBool,
    sleeper: Parker,
}

/// Whoever holds it has to end the run: it may not be let go.
pub(crate) struct Running<'p> {
    pace: &'p Pace,
}

impl Pace {
    /// The pace of a run that isn't over.
    pub(crate) fn new() -> Pace {
        Pace {
            over: AtomicBool::new(false),
            sleeper: Parker::new(),
        }
    }

    /// The run, to be ended once.
    pub(crate) fn running(&self) -> Running<'_> {
        Running { pace: self }
    }

    /// Sleeps for so many microseconds, or until the run is over if that is sooner.
    pub(crate) fn pause<R: Wait>(&self, rt: &R, micros: u64) {
        if !self.over.load(Ordering::SeqCst) {
            self.sleeper.park_timeout(rt, Duration::from_micros(micros));
        }
    }
}

impl Running<'_> {
    /// Says that the run is over, and wakes the reader.
    pub(crate) fn end(self) {
        let Running { pace } = self;
        pace.over.store(true, Ordering::SeqCst);
        pace.sleeper.unpark();
    }
}
