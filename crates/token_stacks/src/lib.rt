//! The two stacks that a token carries: what is left to be done with the value that it asks for, and the boxes that are open around it.
//! `Stacks` is both together, and `BoxStack` the second alone, in a lawful order, as a key of maps.
//!
//! Contracts see lists of symbols and of signatures, which are trees; the code keeps flat words, both stacks in one vector: the box
//! stack from its bottom, and directly behind it the work stack from its bottom. Each call is one row of a table: it makes exactly that
//! change at the top, and where the stacks lack the shape, or memory runs out, they stay as they were.
//!
//! A call on the work stack alone costs what changes at its top. A call on both moves the border between them. A signature that goes
//! from one to the other changes places with what lies below it on the work stack, and stays where it is if that is nothing; at a door
//! the second part of the pair moves by one word, and so does the second part of a `y`. So no call costs what lies below on the box
//! stack, and those of boxes, doors and fixpoints cost the words of the work stack. The bad case is a long work stack that passes
//! fixpoints again and again without a box: each copies it whole. Nothing recurses, be it a call, a copy, a comparison or a drop.
//!
//! `push_work`, `push_boxes` and `push_key` append the text of a stack, its top first.
//!
//! Which call a token makes at which node is left to those who walk.
#![tactic(auto)]

mod box_stack;
mod held;
mod laws;
mod print;
mod stacks;
mod words;

pub use box_stack::BoxStack;
pub use laws::{law_boxes_in_order, law_words_tell};
pub use print::{push_boxes, push_key, push_work};
pub use stacks::Stacks;
