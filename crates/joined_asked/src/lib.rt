//! What is asked of a table of joined rows before a module is made of it, row by row, and all rows of which that is true.
//!
//! A row has to be right of the net (`joined_check`), to be one that a module can have, and to take its pointers and numbers from within.
//! Each is answered exactly; `keep_asked` leaves out the rows of which it isn't true.
#![tactic(auto)]

mod asked;
mod fits;
mod starts;
mod within;

pub use asked::{entry_asked, keep_asked};
pub use fits::entry_fits;
pub use starts::starts_within;
pub use within::entry_within;
