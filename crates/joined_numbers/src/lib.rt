//! The circuit of joined rows with numbers in place of keys and shapes. Laws alone.
//!
//! A module keeps a number for a key and a tag for a shape, and its rows are plain data. Where the table is right of a net, and its rows
//! take their pointers from within their lists, the rows of numbers do what the circuit over compound cells does, cycle by cycle
//! (`law_rows_along`), and each row finds what it reads (`law_row_needs`). A number of the net may be one of a port: a table is checked
//! once, and is right at all numbers there (`law_rows_at_ports`).
#![tactic(auto)]

mod laws;

pub use laws::{law_row_found, law_row_needs, law_rows_along, law_rows_at_ports, law_rows_mean};
