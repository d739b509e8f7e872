//! The log of a run, and schedules as texts.
//!
//! `Log` is the list of moves of a run, each with its ticket and its worker. It is kept as runs of equal moves, in 8 bytes a run;
//! `law_one_way_to_run` says that the moves tell the runs. A schedule is the list of its tickets, kept as a text: `print_schedule`
//! writes version 2, and `read_schedule` reads both versions or tells the first fault. `specs/Schedules.antt` says which bytes are the
//! text of which tickets, and which fault of other bytes is the first; the laws say that each text is read in one way, and that what is
//! printed is read back. Whether a net can run a schedule is left to the crates above.
#![tactic(auto)]

mod count;
mod entry;
mod fault;
mod fill;
mod laws;
mod line;
mod log;
mod moves;
mod print;
mod runs;
mod scan;
mod text;
mod version;

pub use entry::Entry;
pub use fault::ScheduleFault;
pub use laws::{
    law_first_fault, law_log_one_answer, law_log_read_back, law_one_way_to_run,
    law_rows_of_version_one, law_rows_of_version_two, law_short, law_tally,
};
pub use log::Log;
pub use moves::{Held, MOST_COUNT, Moves};
pub use print::print_schedule;
pub use runs::run_at;
pub use text::read_schedule;
