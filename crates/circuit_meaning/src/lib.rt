//! What the circuit of a program or of a function of numbers does. Laws alone.
//!
//! `IsCircuit` of `specs/Circuit.antt` says it by the meaning of Verilog and by the function alone. Each table of joined rows that the
//! check takes has such a circuit, and what `joined_needs` counts along its rows is what that circuit needs (`law_circuits`).
#![tactic(auto)]

mod laws;

pub use laws::law_circuits;
