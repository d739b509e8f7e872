//! Each edge of the module of joined rows is a row of its table, one that waits, or a rest. Laws alone.
//!
//! What the registers stand for is told by `Stands`: rows with their waits, which know no registers. The edges are counted by these alone.
#![tactic(auto)]

mod laws;

pub use laws::law_joined_edges;
