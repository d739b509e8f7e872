//! The programs of a list in one run: from the text of each to the report on all of them.
//!
//! `judge_program` makes of a text a job that runs, or the line of its first fault; `report_batch` runs all jobs by workers that they
//! share and tells of each program, under its number, what a run of it alone within its budget prints, or its refusal. The definitions
//! stand in `specs/Sections.antt`. The list itself, files and sinks are left to the crates beside and above.
#![tactic(auto)]

mod judged;
mod laws;
mod report;
mod sections;
mod sorting;

pub use judged::{Judged, judge_program};
pub use laws::law_one_section;
pub use report::report_batch;
