//! The rows of a table of joined rows, as a module takes them.
//!
//! `module_rows` gives each key of a table a number, each shape a tag, and makes of each entry the row that `joined_module` has of it;
//! `start_number` is the number of the key at which a net's run begins.
#![tactic(auto)]

mod given;
mod numbers;
mod rows;
mod values;

pub use numbers::{key_number, start_number};
pub use rows::module_rows;
