//! The fields of a table of joined rows, and the block that finds a row, as trees that a program holds.
//!
//! `row_fields` are the registers of a row, `table_widths` the widths and counts of the module. `find_statement` is the block that finds
//! the row at a key by what is seen there, `fetch_statement` what its registers take, and `grouped` names of which there are as many as
//! the table says.
#![tactic(auto)]

mod chains;
mod fields;
mod finds;
mod names;
mod slots;
mod widths;

pub use chains::{fetch_statement, list_statement};
pub use fields::{Field, by_field, literal_field, operand_field, row_fields, side_title};
pub use finds::find_statement;
pub use names::{Group, grouped, joined};
pub use slots::{all_slots, slot_tagged, slot_title};
pub use widths::{Widths, cell_width, fork_width, table_widths, tag_bits, vector_wide};
