//! The reduction of a program as a text: its value, the number of its steps, and each term with the part that is rewritten next.
//!
//! `push_steps` appends that text. `specs/Lines.antt` says what the line of a step is, and `specs/Courses.antt` how far a reduction
//! goes and what its text is; the steps are those of `term_steps`. The laws say that the value that is told is the one that the program
//! means, and what is the matter where none is told. Reading a program and its types is left to the crates above.
#![tactic(auto)]

mod course;
mod laws;
mod line;
mod mark;
mod size;
mod text;

pub use laws::{law_none_is_limit, law_told_is_meant};
pub use text::push_steps;
