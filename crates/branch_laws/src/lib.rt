//! A branch of a run is a run: runs are made of runs, whoever plays them. Laws alone, no code.
//!
//! A token that is live in a state may be played alone, from a state of its own in which it is ticket 0 and there is nothing else, it and
//! all that it forks, as long as each join finds the entry of a fork of its own. That run, under other tickets, is then a run of the
//! state, and leads to the state with what came of the token grafted into its place (`law_branch`). `law_branch_maps` says it of the
//! finite maps that a running machine keeps. Who plays branches, and how they are put into a machine, is left to the crates above.
#![tactic(auto)]

mod laws;

pub use laws::{law_branch, law_branch_maps, law_example_branch};
