//! What is told of a run.

/// What is told of a run beside its value and its moves.
#[derive(Clone, Copy)]
pub struct Shown {
    /// Whether its schedule is.
    pub schedule: bool,
    /// Whether the moves of each worker are.
    pub tally: bool,
    /// Whether its progress is.
    pub progress: bool,
}
