//! What one step was.

use pcf_values::Val;

/// What became of the ticket that moved.
#[derive(Clone, Copy)]
pub enum Stepped {
    /// It went on by a move that needs no other token.
    Went,
    /// It went on to the left operand, and this new ticket to the right one.
    Forked(u32),
    /// Its answer was the first of its fork and was kept, and the ticket ended.
    Kept,
    /// Its answer was the second of its fork, and it went on with what both come to. The values are the left and the right operand's.
    Joined(Val, Val),
    /// It brought the run's answer, and ended.
    Answered(Val),
}
