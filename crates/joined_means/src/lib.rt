//! What the module of joined rows tells. Laws alone.
//!
//! Of a table the check asks one number that computes, `module_runs` (`joined_numbers`), whoever made it. Then the module tells what the
//! table's program means (`law_joined_program`), or its function at the numbers that were at the ports (`law_joined_function`): the value
//! and the net's length, or that it is full. When that is, is counted along the rows with their waits.
#![tactic(auto)]

mod laws;

pub use laws::{law_joined_function, law_joined_program};
