//! The state that workers share, and what each call makes of it.
//!
//! A `PoolState` keeps a net, its budget, a machine, the log of the moves made, and what each worker holds. `Good` says what is true of
//! every pool: the machine's state is what the log leads to, held tickets are live and held once, and the log with all that is set
//! aside stays within the budget. `take` hands a worker a ticket's token, `book` makes its moves, and `finish` leads the run to its end;
//! the log that it hands out replays to the answer. `take_branch` and `book_branch` do the same where what a worker makes of a token is a
//! branch of the run. The first two are the plain form of the law: as a `Bench` they serve workers behind a lock, which tests alone do.
//! `branch_pool` has the bench over the others, by which every command goes. The laws say the same of the definitions alone. When workers
//! come, and that they come at all, is left to others.
#![tactic(auto)]

mod bench;
mod booking;
mod branches;
mod ending;
mod entries;
mod laws;
mod pieces;
mod places;
mod pool;
mod turns;

pub use ending::Ended;
pub use entries::{Booked, Held, Reply};
pub use laws::{
    law_book_keeps, law_branches_keep, law_finish_replays, law_start_good, law_stop_keeps,
    law_take_keeps,
};
pub use pieces::{Piece, Taken};
pub use pool::PoolState;
