//! The operators of two numbers.

/// A strict operator: it asks both operands. The definitions of `specs/` speak of this very type, so that a rule for operators is
/// stated once.
#[derive(Clone, Copy, Debug, PartialEq, Eq)]
pub enum Operator {
    /// The sum.
    Plus,
    /// The difference, 0 where it would be below.
    Minus,
    /// The product.
    Times,
}
