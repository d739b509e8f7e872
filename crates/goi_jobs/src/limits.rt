//! The ends of ranges that no other crate speaks of: the most moves of a trace, the sizes of a circuit, and the like. What goes into a
//! run, as the most workers, is limited in `pcf_values`.

/// The most moves of a trace that can be asked for.
pub const TRACED_MOVES: u32 = 1_000_000;

/// The most steps of a reduction that are told if so many are asked for.
pub const TOLD_STEPS: u32 = 100_000;

/// The most cells of a circuit that can be asked for.
pub const MOST_CELLS: u32 = 1_048_575;

/// The most forks of a circuit that can be asked for.
pub const MOST_FORKS: u32 = 1024;
