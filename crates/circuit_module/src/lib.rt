//! Small parts of a circuit's module, and what its registers hold; no code and no laws.
//!
//! Counts become numbers of bits (`bits_for`), assignments become blocks (`set`, `block`), and a value is a number of 65 bits
//! (`value_number`). The module of joined rows and what is said of it have these from here.
#![tactic(auto)]
