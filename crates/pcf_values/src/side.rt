//! The two sides of what has a left and a right part.

/// An operand of an operator, or a part of a pair. The definitions of `specs/` speak of this very type.
#[derive(Clone, Copy, Debug, PartialEq, Eq)]
pub enum Side {
    /// The first, on the left.
    Left,
    /// The second, on the right.
    Right,
}
