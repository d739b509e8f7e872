//! What comes of an answer.

use pcf_values::Val;

/// What comes of an answer: it is the first of its fork, or the other side had this value.
#[derive(Clone, Copy, PartialEq, Eq)]
pub enum Arrived {
    /// The first: it is kept.
    First,
    /// The second, with the value that the other side had.
    Both(Val),
}
