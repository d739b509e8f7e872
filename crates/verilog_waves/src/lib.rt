//! Writes what a module of Verilog does, edge by edge, as a text that programs open which show waves, as GTKWave.
//!
//! `push_waves` resets a module, runs it until it says `done` or `full`, or until there were as many edges as are allowed, and appends the
//! value change dump of that run: exactly the definition `dump` of `specs/Dump.antt`, whose values are those of the meaning of Verilog
//! (`specs/Course.antt`). What a module computes, and whether a tree is one, is left to others; so is what a program shows of the text.
#![tactic(auto)]

mod changes;
mod laws;
mod shown;
mod waves;
mod words;

pub use laws::{law_codes_differ, law_values_tell};
pub use waves::push_waves;
