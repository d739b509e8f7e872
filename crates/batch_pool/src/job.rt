//! One job of a batch.

use net_build::Net;

/// A net that is run, and how many moves it may make.
#[derive(Drop)]
pub struct BatchJob {
    /// The net of the job's program.
    pub net: Net,
    /// The most moves of its run.
    pub budget: u32,
}
