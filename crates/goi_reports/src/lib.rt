//! The reports that are printed: what stands on standard output behind a run, a check of types, a replay or a generated program.
//!
//! Each call makes one report whole in memory and answers its bytes, which are the definition of the same name in
//! `specs/Reports.antt`; it answers otherwise only where memory runs out. `specs/Forms.antt` says of a text that it is a report of
//! its kind for some run. How a run came to its answer and its log, and where a report is written to, is left to the crates above.
#![tactic(auto)]

mod brief;
mod check;
mod counts;
mod cycles;
mod laws;
mod line;
mod needs;
mod run;
mod span;

pub use brief::{demo_report, replay_report};
pub use check::check_report;
pub use cycles::cycles_report;
pub use laws::{law_plain_run, law_report_rows, law_tally_adds_up};
pub use needs::{needs_report, no_row_report};
pub use run::{Parts, run_report};
pub use span::{PROFILE_ROUNDS, RoundParts, span_report};
