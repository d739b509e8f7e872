//! The unit of numbers beside the walk; no code.
//!
//! What its registers say it works at, how an edge changes that (`law_late_unit`), and what its wires tell (`law_late_told`).
#![tactic(auto)]

mod laws;

pub use laws::{law_late_told, law_late_unit};
