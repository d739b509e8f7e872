//! The jobs among judged programs, and a mark for each program.

ghost use Rattle.std.specs.Prelude.{◌≡◌, ◌++◌, ◌∷◌, [], IfOk, OnOk};
ghost use Rattle.goi_batches.specs.Telling.{jobs_of, marks_of};

use crate::judged::Judged;
use batch_pool::BatchJob;
use std::alloc::{AllocError, Global};

/// The marks of programs and the jobs of those that run, each in turn. A mark is the line of a refusal, or none where the program runs.
pub(crate) fn sort(
    alloc: Global,
    mut programs: Vec<Judged>,
) -> Result<(Vec<Option<Vec<u8>>>, Vec<BatchJob>), AllocError>
    ensures marks { IfOk result (λ p. p.0.items ≡ marks_of programs.items) }
    ensures jobs { IfOk result (λ p. p.1.items ≡ jobs_of programs.items) }
{
    let mut marks = Vec::new(alloc);
    let mut jobs = Vec::new(alloc);
    while !programs.is_empty() {
        sort_one(programs.remove(0), &mut marks, &mut jobs)?;
    }
    Ok((marks, jobs))
}

/// Appends the mark of a program, and its job where it runs.
fn sort_one(
    program: Judged,
    marks: &mut Vec<Option<Vec<u8>>>,
    jobs: &mut Vec<BatchJob>,
) -> Result<(), AllocError>
    ensures marks { OnOk result (marks.new.items ≡ marks.old.items ++ marks_of (program ∷ [])) }
    ensures jobs { OnOk result (jobs.new.items ≡ jobs.old.items ++ jobs_of (program ∷ [])) }
{
    match program {
        Judged::Runs(job) => {
            jobs.push(job)?;
            marks.push(None)?;
        }
        Judged::Refused(line) => marks.push(Some(line))?,
    }
    Ok(())
}
