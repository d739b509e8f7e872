//! The replay of a log on a net: the referee of schedules.
//!
//! `replay` believes nothing but the net and the list of tickets. It makes the moves in turn, and answers what the whole list's run
//! answers, or the least place at which a ticket may not move. `specs/Replays.antt` says which of these a list has; the laws say that
//! it is the run of the list where there is one, that no list has two answers, and that each list has one.
#![tactic(auto)]

mod fault;
mod laws;
mod referee;
mod replayed;

pub use fault::ReplayFault;
pub use laws::{law_each_list, law_one_replay, law_replay_is_run};
pub use referee::replay;
pub use replayed::Replayed;
