//! Joined rows: several moves of a token as one. Laws alone.
//!
//! A run of rows is made once with names in place of what a token's stacks have. Where it goes through, it goes through for whatever the
//! names stand for, in as many moves, and comes to what is said with the names (`law_joined_rows`). Two of them that meet are one again
//! (`law_joined_pairs`). So a table of joined rows is made of the net alone, and no move of a run is lost or added. In the field's words a
//! joined row is a monomial of Girard's dynamic algebra, a chain of rows is their product, and a table of them is a part of the execution
//! formula that is worked out before the run (Girard, 1989; Danos and Regnier, 1995).
#![tactic(auto)]

mod laws;

pub use laws::{
    law_compound_cells, law_compound_rows, law_compound_ticks, law_example_joined,
    law_joined_pairs, law_joined_rows, law_joined_ticks,
};
