//! A branch of a run as a piece of work: one token played by itself, with all that it forks, and put into the machine that it was taken of.
//!
//! `branch_of` takes a token that is live in some state of a net's runs, and plays it on a small machine of its own. The result is a
//! `Branch`, whose type keeps that it is such a run: of which token, by which moves, and what came of it. `graft` puts it into any machine
//! of the net in which that token is live; what that does is so many moves of a run, under the machine's own tickets. Which net it is, the
//! types name, so that nobody compares nets. Who hands tokens out and takes branches in is left to the crates above.
#![tactic(auto)]

mod grafting;
mod growing;
mod naming;
mod playing;
mod seed;
mod tickets;

pub use grafting::graft;
pub use naming::{NamedNet, OnNet};
pub use playing::{Branch, branch_of};
pub use seed::Seed;
pub use tickets::name_of;
