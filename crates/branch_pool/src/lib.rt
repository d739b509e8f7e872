//! The pool whose pieces are branches of the run, as the bench of several workers.
//!
//! A worker is handed a token, plays it and all that it forks on a small machine of its own, and hands the whole in as a `Branch`, which
//! the pool books at once. So the lock is taken once for thousands of moves, and not once for 64. What is true of every pool and what its
//! finisher makes of it is `token_pool`'s; here is what a worker is told, what it makes of it, and how that is taken in. Which net all
//! of it is on, the types name.
#![tactic(auto)]

mod bench;
mod pieces;

pub use bench::{BranchPool, play_piece, take_in, turn_in};
pub use pieces::BranchPiece;
