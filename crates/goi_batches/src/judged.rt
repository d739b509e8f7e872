//! One program of a list: a job that runs, or the line of its refusal.

ghost use Rattle.std.specs.Prelude.{◌≡◌, ◌≤◌, IfOk};
ghost use Rattle.batch_lists.specs.Limits.{most_job_budget};
ghost use Rattle.goi_tasks.specs.Refusals.{fault_line};
ghost use Rattle.goi_batches.specs.Judging.{IsJudged};
ghost use Rattle.goi_batches.specs.Sections.{listed};

use batch_pool::BatchJob;
use goi_tasks::{Fault, refuse};
use program_runs::{Calling, NoRun, net_for};
use std::alloc::{AllocError, Global};

/// What a program of a list came to before the run.
#[derive(Drop)]
pub enum Judged {
    /// It runs, as this job.
    Runs(BatchJob),
    /// It is refused, with this line.
    Refused(Vec<u8>),
}

/// Judges the text of a program that may make so many moves.
///
/// # Errors
///
/// It runs out of memory.
pub fn judge_program(alloc: Global, bytes: &[u8], budget: u32) -> Result<Judged, AllocError>
    requires some { 1 ≤ budget }
    requires few { budget ≤ most_job_budget }
    ensures { IfOk result (IsJudged (listed budget bytes.now)) }
{
    match net_for(alloc, bytes, Calling::ByName) {
        Ok(net) => Ok(Judged::Runs(BatchJob { net, budget })),
        Err(NoRun::Fault(fault)) => Ok(Judged::Refused(line_of(alloc, Fault::Program(fault))?)),
        Err(NoRun::Memory) => Err(AllocError),
    }
}

/// The line of a fault.
fn line_of(alloc: Global, fault: Fault) -> Result<Vec<u8>, AllocError>
    ensures { IfOk result (λ v. v.items ≡ fault_line fault) }
{
    let refusal = refuse(alloc, fault)?;
    Ok(refusal.line)
}
