//! Helpers of tests: gates for several workers, one that counts its calls and one at which two workers meet, and the rows of tables.
//!
//! No clause says that workers run side by side, or that the gate is called without the lock. `Meeting` shows it: it answers that two
//! workers were inside at once, which one worker alone can't bring about. `Counting` counts calls and turns. `cut` and `number` read a
//! table's row. Nothing but tests stands on this crate.
#![tactic(auto)]

mod gates;
mod rows;

pub use gates::{Counting, Meeting};
pub use rows::{cut, number};
