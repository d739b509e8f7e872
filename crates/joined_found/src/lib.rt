//! The row that the module of joined rows finds, in registers that have room for each of its fields. Laws alone.
//!
//! Each field of a row has room for its number in each row of the table (`law_fields_fit`). The block that settles finds the row of the key
//! that the token comes to and of what is seen there; where that is seen an edge later, the row that waits there; and where there is none
//! the fields are idle (`law_next_row`). It is one of the rows that the module has (`law_row_taken`). A table's rows come to keys at which
//! rows see what is looked at there, where each entry sees what its site shows (`law_rows_land`).
#![tactic(auto)]

mod laws;

pub use laws::{law_fields_fit, law_next_row, law_row_taken, law_rows_land};
