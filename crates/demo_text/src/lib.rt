//! The generated program of a number.
//!
//! `demo_text` answers the text of a large valid program, whose size grows with the number; the text is the definition `demo_text` of
//! `specs/Text.antt`. The laws say that each text up to the limit of the command line is read, has the type of numbers, and is of the
//! size `4 * 2^n + 5` (`specs/Laws.antt`), so that running one needs no premise. Running and reporting are left to the crate above.
#![tactic(auto)]

mod laws;
mod text;

pub use laws::{law_demo_is_typed, law_demo_size};
pub use text::demo_text;
