//! The check of a table of joined rows against its net, exact both ways.
//!
//! `row_right` answers what `joined_core` says of one row, `right_table` of a whole table: each row is run with its names, move by move.
//! The net may have ports, whose numbers decide nothing. All calls fail at want of memory alone.
#![tactic(auto)]

mod begins;
mod ends;
mod numbers;
mod rows;
mod shapes;
mod stacks;
mod step;
mod tables;
mod ticks;

pub use begins::behind_test;
pub use ends::found_join;
pub use rows::row_right;
pub use tables::{right_table, site};
pub use ticks::tick;
