//! What a log comes to.

use pcf_values::Val;

/// What the whole of a log comes to.
#[derive(Clone, Copy, PartialEq, Eq)]
pub struct Replayed {
    /// The answer of the run, if it has one.
    pub answer: Option<Val>,
    /// How many moves it has, which is the log's length.
    pub moves: u32,
}
