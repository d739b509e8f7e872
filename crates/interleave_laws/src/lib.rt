//! The states of the machine, and what holds of every order of moves; no code.
//!
//! A state has live tokens and open entries, and a log of tickets leads from one state to another. The definitions see them as functions,
//! and once more as the finite maps that the code keeps. The laws say what holds whatever the order of moves: on a net that runs, each
//! live ticket has its step, no place is asked twice, two moves may be exchanged, and one worker goes on to the answer. The machine that
//! makes the steps is the crate above. Which nets run, what the answer is, and how many moves lead to it, is left to the crate of adequacy.
#![tactic(auto)]

mod laws;

pub use laws::{
    law_any_order, law_diamond, law_example_runs, law_maps, law_one_worker, law_progress,
    law_trail_steps,
};
