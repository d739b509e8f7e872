//! Scope and types of programs.
//!
//! `resolve_and_type` makes of a term as it was read a closed term with its type, or tells the first fault from left to right with
//! its place; `ground` asks for the type `nat`. The answer is that of the definition in `specs/Checking.antt`, and `specs/Correct.antt`
//! says what the definition is worth: it accepts just the trees that stand for a typed term. Types are compared in place; the only
//! copies are those that the answer holds. Reading and reporting are left to the crates beside and above.
#![tactic(auto)]

mod fault;
mod infer;
mod judged;
mod known;
mod laws;
mod resolve;
mod scope;

pub use fault::TypeFault;
pub use laws::{law_correct, law_keeps_size};
pub use resolve::{NotGround, ground, resolve_and_type};
