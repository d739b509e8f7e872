//! How many cells and forks the circuit of a table of joined rows needs, and how many cycles it takes, counted along its run.
//!
//! `joined_needs` makes the edges that the circuit's module makes, rows with all that they wait for, up to the answer or a budget of moves,
//! and counts the most cells that are in use at once and the most forks that are open. It has no registers and no tree: what it does is
//! `edge_run` of `specs/Edges.antt`, the edges of `joined_edges` with whatever room they take. The law says that these counts are exactly
//! what the circuit needs for as many edges. What they say of a program is told in `circuit_meaning`, and printing is left to the crates
//! above.
#![tactic(auto)]

mod edges;
mod find;
mod forks;
mod laws;
mod makes;
mod needs;
mod pointers;
mod walk;

pub use laws::law_needs_exact;
pub use needs::{Ending, Needs, joined_needs};
