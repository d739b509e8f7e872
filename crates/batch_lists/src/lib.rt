//! Lists of jobs as texts.
//!
//! `read_batch` reads a list of jobs, each with its budget and the name of its program's file, or tells the list's first fault.
//! `specs/Lists.antt` says which bytes are the list of which jobs, and which fault of other bytes is the first; `law_one_list` says that
//! bytes are read in one way at most. The limits of a batch stand here too. Whether a file is there, and what its program does, is left
//! to the crates above.
#![tactic(auto)]

mod fault;
mod laws;
mod limits;
mod line;
mod list;

pub use fault::BatchFault;
pub use laws::{law_batch_limits, law_one_list};
pub use limits::{JOB_BUDGET, JOBS, LIST_BYTES};
pub use line::BatchLine;
pub use list::read_batch;
