//! The numbers of a circuit in several cycles; no code and no laws.
//!
//! A sum and a difference of values of 64 bits, by quarters that are put together a cycle later; and a product bit by bit, each of which
//! takes two cycles of the same unit. What the unit of a module does at its edges is told by the laws of `late_unit`.
#![tactic(auto)]
