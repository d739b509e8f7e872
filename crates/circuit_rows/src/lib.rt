//! The rows of a net in code: for each wire and direction the one operation that a circuit does there.
//!
//! `row_of` answers the row of a channel, a wire with a direction, in constant time, as `net_rows` defines it, whose laws say that a move
//! by the rows is the move of the machine; contracts see this crate's rows and channels by the views of `specs/Views.antt`. What a
//! row of joined moves is made of them is left to `joined_table` and `joined_search`.
#![tactic(auto)]

mod begin;
mod found;
mod row;

pub use begin::start;
pub use found::row_of;
pub use row::{Channel, Found, Row};
