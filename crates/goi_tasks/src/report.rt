//! What a job prints.

ghost use Rattle.std.specs.Prelude.{◌≡◌, []};
ghost use Rattle.goi_tasks.specs.Outputs.{output};
ghost use Rattle.goi_tasks.specs.Seen.{output_of};

use std::alloc::Global;

/// What a job prints, and the status with which it ends: 0, or 5 where a run or a schedule came to no value.
#[derive(Drop)]
pub struct Report {
    /// The report, for the standard output.
    pub text: Vec<u8>,
    /// What is told behind it on the error output.
    pub notes: Vec<u8>,
    /// The status.
    pub status: u8,
}

/// What is printed without notes.
pub(crate) fn plain(alloc: Global, text: Vec<u8>, status: u8) -> Report
    ensures { output_of result ≡ output status text.items [] }
{
    Report {
        text,
        notes: Vec::new(alloc),
        status,
    }
}
