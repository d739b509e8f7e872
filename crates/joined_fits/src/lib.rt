//! Whether a table of joined rows fits its module.
#![tactic(auto)]

mod fits;
mod within;

pub use fits::table_fits;
