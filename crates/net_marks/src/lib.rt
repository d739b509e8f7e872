//! The walk over the nodes of a net, from the last one to the first, with the marks of its variable wires.
//!
//! A `Walk` is how many nodes are left, and each wire's `Mark`: its variable's binder, and the box in which it stands. `next` takes the
//! next node; `pass` passes the contractions, weakenings, doors and boxes between a term and its operands, and hands on marks as
//! `specs/Passing.antt` says; `variable_of` is the variable of a mark. Which term is read in such a walk is left to the crate above.
#![tactic(auto)]

mod variable;
mod walk;

pub use variable::variable_of;
pub use walk::{Mark, Walk, next, pass, value_of};
