//! Rows with what they wait for go along with the rows. Laws alone.
//!
//! What a module waits for is told without registers (`joined_edges`): for how many edges a number is on its way, and what was written or
//! read at the last edge. So how many edges a run takes is counted along its rows (`law_timed_along`).
#![tactic(auto)]

mod laws;

pub use laws::law_timed_along;
