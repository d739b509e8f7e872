//! The module of joined rows; no code.
#![tactic(auto)]
