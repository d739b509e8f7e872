//! Several jobs that are run by the same workers.
//!
//! `run_batch` runs all jobs: each run is one of that job's net and budget, whatever the others are. With at least as many jobs as workers
//! each job is one worker's, who runs it alone, without a lock; all that the workers share then is the number of the next job. With fewer
//! jobs all workers run each job in turn.
//!
//! A `BatchState` is the plain form of a batch whose jobs' tokens are shared behind one lock. No command of the program shares them so,
//! since jobs in turn are faster; tests alone play it. It keeps a pool of its own for each job. `BatchGood` says what is true of every
//! batch: each pool is a good one, none of them is stopped by itself, and a worker holds a ticket in one job at most. `take` hands a worker
//! a ticket of the least job that has one, `book` makes its moves in the job of that ticket alone, and `finish` leads each job to its own
//! end. As a `Bench` the same calls serve workers behind a lock. When workers come, and that they come at all, is left to others.
#![tactic(auto)]

mod apart;
mod asking;
mod bench;
mod booking;
mod ending;
mod job;
mod laws;
mod pieces;
mod places;
mod running;
mod spare;
mod starting;
mod state;

pub use job::BatchJob;
pub use laws::law_pause_holds;
pub use pieces::{BatchPiece, BatchTaken};
pub use running::run_batch;
pub use state::BatchState;
