//! The top call: what the program does, over files and sinks that are handed in.
//!
//! `goi` reads the words, loads the files that they name, makes the whole answer as a value and writes it out; its contract says, from
//! the bytes of the files to the bytes of the answer, what each status means and why it comes. Nothing of the files has to be known
//! beforehand: the answer is right for whatever they hold that all reads fit. The statements stand in `specs/Promise.antt`, and in
//! `specs/OnSystem.antt` what they come to over the files of the system and two writers. Which device the files and sinks are is left to
//! the caller, and so are the words: `tell_no_memory` says as `goi` does that there was none for them.
#![tactic(auto)]

mod answer;
mod batching;
mod call_headline;
mod calling;
mod circuit_headline;
mod deliver;
mod headline;
mod load;
mod top;
mod verilog;

pub use call_headline::law_call_headline;
pub use circuit_headline::law_circuit_headline;
pub use deliver::tell_no_memory;
pub use headline::law_headline;
pub use top::goi;
