//! The limits of a batch, each inclusive.

/// The most jobs of a batch.
pub const JOBS: u32 = 64;

/// The most moves that a job may be allowed.
pub const JOB_BUDGET: u32 = 100_000;

/// The most bytes of a list of jobs.
pub const LIST_BYTES: u64 = 1_048_576;
