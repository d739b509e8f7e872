//! The circuit over compound cells that runs a table of joined rows. Laws alone.
//!
//! A table is right where each of its rows runs with names on the net, which is checked by computing (`law_listed_table`). The circuit has
//! the token, the open forks and the cells, and makes a row in a cycle. With a right table, whoever made it, it does in a cycle what the
//! processor does in as many moves as the row has (`law_joined_step`), or is full; so it answers what the program means
//! (`law_joined_means`).
#![tactic(auto)]

mod laws;

pub use laws::{
    law_example_recursive, law_example_table, law_joined_follow, law_joined_means,
    law_joined_memory, law_joined_room, law_joined_step, law_joined_time, law_key_numbers,
    law_listed_table,
};
