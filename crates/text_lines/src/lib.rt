//! Texts that consist of lines: their first line, their last line, and the number with which bytes begin.
//!
//! `cut_line` takes the first line off a text, `is_end` knows the line `end`, and `number_in` reads a number without leading zeros, of
//! any length. `specs/Lines.antt` says what the lines of a text are, and `specs/Numbers.antt` which digits are a number. Each call goes
//! over its bytes once and takes no memory. What the lines of a format say is left to the crates above.
#![tactic(auto)]

mod line;
mod number;

pub use line::{cut_line, is_end};
pub use number::number_in;
