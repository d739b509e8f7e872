//! The table in which the two answers of a fork meet.
//!
//! A fork at a node opens an entry under the node and the box stack of the question. `JoinTable` is seen by contracts as one finite map
//! from such keys to what is kept: nothing yet, or the answer of one operand. `begin` opens an entry, and `arrive` brings an answer:
//! the first one is kept, and the second one is given the other side's value and closes the entry. Each of the two changes its one entry
//! and nothing else, and costs a logarithm of their number. `entries` lists what is open, in order, and `add_all` takes in the entries of
//! another table. Which tokens fork, and what becomes of them, is left to the crates above.
#![tactic(auto)]

mod adding;
mod forks;
mod listing;
mod outcome;
mod table;

pub use forks::Kept;
pub use listing::Open;
pub use outcome::Arrived;
pub use table::JoinTable;
