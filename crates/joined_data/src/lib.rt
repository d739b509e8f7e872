//! Rows of joined moves as data, and what a module's fields say of them.
//!
//! `Row` is a row as `ModuleRow` of `joined_module` has it: keys and tags are numbers, and its lists lie in an arena. `specs/Views.antt`
//! says which row each of these stands for. A field of a row is a `Figure`: `figured` is its number in a row, `most` the most that rows
//! have, and `origins_at` and `operands_at` are the kinds of what rows have at a place. `found_rows` puts the rows that wait in front.
#![tactic(auto)]

mod counts;
mod figures;
mod flags;
mod lists;
mod operands;
mod origins;
mod rows;
mod waits;

pub use counts::{bits_upto, has_product};
pub use figures::{Figure, figured, most};
pub use flags::{Flag, flagged};
pub use lists::{operands_at, origins_at};
pub use operands::{Side, first_number, input_operand, is_times, operand_place};
pub use origins::{
    Slot, first_tag, kind_of_origin, opened_boxes, origin_place, row_looks, slot_origin,
};
pub use rows::{Deed, Operand, Origin, Row, Sees, Site, Worth};
pub use waits::found_rows;
