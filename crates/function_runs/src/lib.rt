//! Functions of numbers inside other programs: a text is read once, and then called with many numbers.
//!
//! `compile` reads the text of a closed term of type `nat -> .. -> nat`, checks its types and builds its net at zeros; `compile_any` finds
//! out how many numbers it takes. A `Function` is that term for contracts, with that count. Its `call` runs it at numbers: they are put
//! into their places in the net, and nothing is read, typed, built or copied again. A call answers what the term applied to those numbers
//! means, after as many moves as the net of that application is long. How a run goes is left to `net_runs`.
#![tactic(auto)]

mod applying;
mod compiling;
mod exchanging;
mod function;
mod laws;

pub use applying::MOST_ARGUMENTS;
pub use compiling::{compile, compile_any};
pub use function::Function;
pub use laws::{law_applied_tree, law_one_function, law_one_of_any, law_same_as_text};
