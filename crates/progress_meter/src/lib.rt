//! A number that one thread publishes and any others read, beside whatever lock the work itself goes by.
//!
//! `meter` makes both ends of a new meter, on which 0 is published. The `Writer` publishes numbers that never go down, and its type keeps
//! them all. A `Reader` reads the number published last, `another` gives a second reader, and its type keeps that its readings never
//! go down. Once both ends are in one thread again, `Writer::settle` teaches that each of the readings had been published.
//! The number is a word under a rule, and what each end knows is a view, which exists in proofs alone. When a reading is fresh, no
//! clause says; that a waiting call returns, none either.
#![tactic(auto)]

mod laws;
mod reader;
mod rule;
mod writer;

pub use laws::law_steps_keep_the_rule;
pub use reader::Reader;
pub use rule::View;
pub use writer::{Writer, meter};
