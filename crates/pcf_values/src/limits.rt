//! The limits of the program, each inclusive.

/// The most bytes of a program's file.
pub const PROGRAM_BYTES: u64 = 1_048_576;

/// The most bytes of a schedule's file.
pub const SCHEDULE_BYTES: u64 = 134_217_728;

/// The most nodes of a program, as the reader counts them.
pub const PROGRAM_NODES: u32 = 32_768;

/// The most phrases that are open at once in a program's text.
pub const OPEN_PHRASES: u32 = 500;

/// The most workers of a run.
pub const WORKERS: u32 = 64;

/// The most moves that a run may be allowed.
pub const BUDGET: u32 = 10_000_000;

/// The most moves of a schedule.
pub const SCHEDULE_MOVES: u32 = 10_000_000;

/// The largest number of a generated program.
pub const DEMO: u32 = 12;
