//! Runs a tree of Verilog that a program holds, by its meaning.
//!
//! `Scene::new` looks up what a module declares, once before it runs. `Contents` is what its vectors and memories hold, seen as a store of
//! the meaning (`held`), in which what isn't written yet is 0, and so is what is read past an end. `settle` lets all settle, `settled_edge`
//! is an edge where all has settled, and `next_edge` both: exactly what the meaning of `verilog_tree` says, for every tree, whether or not
//! the standard takes it. Registers are read by their names; two names are one where `same_name` says so, and a declared width is
//! `Scene::range_bits`.
//!
//! A name is found in a short list that its bytes tell, and a word of a memory by its place. So what an edge takes doesn't grow with the
//! edges before it. An edge first collects what it is to write, since it reads all as it was.
//!
//! Whether a tree is a module that the standard takes, and what a module computes, is left to others.
#![tactic(auto)]

mod assign;
mod cells;
mod contents;
mod copies;
mod edges;
mod names;
mod operate;
mod run;
mod scene;
mod table;
mod value;
mod widths;
mod writes;

pub use contents::Contents;
pub use edges::{next_edge, settle, settled_edge};
pub use names::same_name;
pub use scene::Scene;
