//! A run of a net whose moves other threads can count while they are made.
//!
//! A `MeteredPool` is a pool with the writer of a meter: whenever nobody is inside a call, the number published last is the number of moves
//! booked. As a `Bench` it hands out branches as a `BranchPool` does, and publishes after each booking, before the lock is let go.
//! `watch_net` runs a net by workers that share such a pool, or by one worker who walks in place and publishes on its way. It reads the
//! meter beside them, and answers what `run_net` answers with the readings: they never go down, none is above the moves that were made in
//! the end, and these come last. When a reading is fresh, no clause says.
#![tactic(auto)]

mod alone;
mod metered;
mod pace;
mod watching;

pub use metered::{MeteredPool, Watched};
pub use watching::watch_net;
