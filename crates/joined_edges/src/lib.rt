//! What a row makes in the module that runs joined rows, and what its registers stand for. Laws alone.
//!
//! `Timed` has the rows with all that they wait for, told without registers, so that each edge is a row, one that waits, or a rest;
//! `Stands` says what registers and memories stand for such a state. Where all has settled, the wires that the row in the registers has are
//! what it makes of that state (`law_row_wires`), and so are the memories behind an edge at which it is made (`law_row_memories`).
#![tactic(auto)]

mod laws;

pub use laws::{law_row_memories, law_row_wires};
