//! The moves that one token makes by itself, and walks of them.
//!
//! `plain_move` and `walk` take any token on any net and make the moves that the table gives it there, in place; the answer is a
//! `Moved`, which keeps as its type that the token afterwards is reached from the one before by one such move through each node of
//! its trail in turn. `law_retrace` says that a move by a plain rule on a sound net can be retraced; it says nothing of the other solo
//! moves, and one at a constant can't be. Forks, joins and the answer are rows of the same table, but whoever makes them needs more
//! than one token; they are left to the crates above.
#![tactic(auto)]

mod ground;
mod laws;
mod moved;
mod plain;
mod step;
mod token;

pub use laws::{law_faced_move, law_one_walk, law_retrace, law_trail_walks};
pub use moved::{Moved, plain_move, walk};
pub use step::{faced, solo_move, solo_step};
pub use token::{Kind, Seen, Token};
