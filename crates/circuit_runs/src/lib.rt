//! Runs the module of a net's circuit by the meaning of Verilog.
//!
//! `run_items` resets a module that is given as a tree and makes edges (`verilog_run`) until it says `done` or `full`, or until there were
//! as many as are allowed. What it answers is what the module's registers say (`specs/Running.antt`), and where the module is the circuit
//! of a program's net, as `circuit_made` makes it, that tells what the program means (`law_program_runs`). The states that a dump
//! of `verilog_waves` shows are those of the run of the same module, and it has as many edges (`law_same_states`, `law_same_end`).
#![tactic(auto)]

mod laws;
mod numbers;
mod outcome;
mod run;

pub use laws::{law_program_runs, law_same_end, law_same_states};
pub use outcome::Outcome;
pub use run::run_items;
