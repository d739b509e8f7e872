//! The module of joined rows as a tree that a program holds.
//!
//! `joined_items` makes exactly the items of `joined_module`, for any table that fits its module.
#![tactic(auto)]

mod clock;
mod module;
mod pointers;
mod registers;

pub use module::joined_items;
