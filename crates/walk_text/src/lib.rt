//! The walk of a run as a text: what the tokens did, move by move.
//!
//! `push_trace` appends the trace of a log on a net: the tokens that are live and the entries that are open where it begins, a line for
//! each move, and `end`. `specs/Lines.antt` says what the line of a move is, as a function of the net, of the state before the move and
//! of the log's entry; the laws say that line K is the line of entry K in the state to which the first K entries lead, and that a
//! window is a part of the whole. How a log is come by is left to the crates above.
#![tactic(auto)]

mod head;
mod laws;
mod line;
mod moves;
mod place;
mod ports;
mod token;
mod trace;
mod words;

pub use laws::{law_example_traces, law_line_by_line, law_walk_ends, law_window};
pub use trace::push_trace;
