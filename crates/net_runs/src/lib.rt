//! The run of a net by so many workers.
//!
//! `run_net` runs a net within a budget of moves, and answers the run's answer with its log. One worker walks in place, with no lock, no
//! thread and no copies; several share a pool behind a lock, and what is left is finished behind them. `IsRun` says what is true of
//! every run, whatever the number of workers and in whichever order they came: its log leads on the net to a state with that answer.
//! That such an answer is what a program means is left to the crates above.
//!
//! `run_by` is that walk in place by a worker of any number, for whoever lets several workers run nets of their own.
#![tactic(auto)]

mod alone;
mod running;

pub use alone::{run_alone, run_by};
pub use running::run_net;
