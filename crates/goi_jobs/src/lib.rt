//! Jobs: what can be asked for.
//!
//! A `Task` says what is done with the text of one file, with its options and numbers, and a `Job` what is asked for: a task on the text
//! of a file, or what takes more than one text or none. Both are the same by whatever way they were asked for: `goi_words` reads a job from
//! words, `goi_tasks` does a task, and neither knows the other. Contracts see a job as the `JobTree` of `specs/Jobs.antt`, and a task as
//! itself; `specs/Ranges.antt` has the ranges of their numbers. `Window` is the part of a trace that is printed, `Shown` what is told of a
//! run, and `Verilog` the one thing that is printed of a circuit.
#![tactic(auto)]

mod jobs;
mod limits;
mod shown;
mod task;
mod verilog;
mod window;

pub use jobs::Job;
pub use limits::{MOST_CELLS, MOST_FORKS, TOLD_STEPS, TRACED_MOVES};
pub use shown::Shown;
pub use task::{Task, progress_of};
pub use verilog::Verilog;
pub use window::Window;
