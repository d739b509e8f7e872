//! What a run comes to.

use pcf_values::Val;

/// What a run of a circuit's module comes to.
#[derive(Clone, Copy)]
pub enum Outcome {
    /// `done` is up: the value that `result` says, what `moves` says, and the edges since the reset.
    Ended(Val, u64, u64),
    /// `full` is up, after so many edges: the cells or the forks were too few, or there was no row.
    Full(u64),
    /// `done` is up after so many edges, but `result` or `moves` has more bits than a circuit's has. No program's module does so.
    Odd(u64),
    /// Neither is up after as many edges as were allowed.
    Waits,
}
