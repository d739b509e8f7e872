//! The rows of a net, by which a circuit goes. Laws alone.
//!
//! A net becomes a table of rows, one for each wire and direction: an operation, and the channels to which it sends. A circuit looks at
//! the row of its token's channel and at its stacks alone, and never at a node. What a row makes of a token is what the table of moves
//! makes of it (`law_net_rows`). The crates above have the order in which a circuit goes by them (`newest_core`), and the rows of several
//! moves that it has in their place (`joined_rows`).
#![tactic(auto)]

mod laws;

pub use laws::{law_example_rows, law_net_rows};
