//! The module of joined rows is one that the standard takes. Laws alone.
//!
//! Of a table that fits, with so many cells and forks and so many ports, the tree of its module is well-formed: each name is declared once,
//! above its use, and is used as what it is; blocks assign to what is theirs, nothing that settles goes in a circle, and all numbers and
//! widths are ones that tools take (`law_joined_well_formed`). The table without rows fits (`law_empty_fits`).
#![tactic(auto)]

mod laws;

pub use laws::{law_empty_fits, law_joined_well_formed};
