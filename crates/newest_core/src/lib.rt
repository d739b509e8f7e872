//! The newest question first: a processor whose open forks are a stack. Laws alone.
//!
//! A fork's left question is walked to its answer before its right one begins. So open forks nest, and questions wait with them. The
//! processor makes a run of the machine in that order (`law_newest`, `law_newest_schedule`), and what it answers is what the program means,
//! at its length (`law_newest_program`). In this order as in any other a token has the stacks of its wire (`law_placed`). The circuit that
//! goes along with the processor, several moves a cycle, is `joined_core`.
#![tactic(auto)]

mod laws;

pub use laws::{
    law_example_newest, law_newest, law_newest_program, law_newest_schedule, law_placed,
};
