//! The words of the command line.
//!
//! `job_of` reads the words with `clap` and answers the `Job` that they ask for. Which job it is, is the definition `job` of
//! `specs/Asked.antt`: what `clap`'s own definition makes of the words at the table of commands of `specs/Commands.antt`. Plain words
//! (`specs/Plain.antt`) mean what the table says, and nothing is refused but what `clap` refuses, and at `circuit` a name that is no
//! module's and an option without use (`specs/Laws.antt`). Contracts see a `Job` as the `JobTree` of `goi_jobs`. Doing the job is left to
//! the crates above.
#![tactic(auto)]

mod commands;
mod defaults;
mod faults;
mod laws;
mod reading;

pub use defaults::{
    DEFAULT_BUDGET, DEFAULT_CELLS, DEFAULT_FORKS, DEFAULT_FROM, DEFAULT_MOST, DEFAULT_NAME,
    DEFAULT_TOLD, DEFAULT_WORKERS,
};
pub use faults::WordFault;
pub use laws::{law_help, law_no_words, law_plain_words, law_taken_words};
pub use reading::job_of;
