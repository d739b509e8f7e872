//! Runs of a net with the newest question first, the order in which a circuit moves.
//!
//! `newest_run` makes the moves of a net in this order, up to the answer or a budget, and `newest_schedule` writes down who moved. Which
//! order that is says `newest_first` of `specs/Order.antt`. Printing is left to the crates above.
#![tactic(auto)]

mod moving;
mod run;
mod schedule;
mod turn;

pub use run::{Ran, newest_run};
pub use schedule::{Scheduled, newest_schedule};
