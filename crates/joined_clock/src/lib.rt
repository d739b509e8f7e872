//! What each part of the clock's block writes in the module of joined rows. Laws alone.
//!
//! The block assigns to the registers of the unit of numbers, of the row, of forks, of the value, of the count of moves and of the lists,
//! one part after the other. Each name is declared once, so a register holds behind an edge what its own part writes, and the other parts
//! don't matter to it (`law_clock_parts`).
#![tactic(auto)]

mod laws;

pub use laws::law_clock_parts;
