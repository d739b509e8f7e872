//! The reading of a list of jobs.

ghost use Rattle.std.specs.Prelude.{◌≡◌, ◌⊎◌, ◌<◌, ◌≤◌, ◌+◌, ◌++◌, ◌∷◌, [], List, Err, length, MatchResult};
ghost use Rattle.text_lines.specs.Lines.{lines, end_line};
ghost use Rattle.batch_lists.specs.declared.fault.BatchFault.TheVariants.{NoMemory};
ghost use Rattle.batch_lists.specs.declared.line.BatchLine.{BatchLine};
ghost use Rattle.batch_lists.specs.Limits.{most_jobs, most_list_bytes};
ghost use Rattle.batch_lists.specs.Lists.{IsJobLine, FirstFault, WholeList, IsList, ReadAsList};
ghost use Rattle.batch_lists.specs.Scanning.{LineFault};

use crate::fault::BatchFault;
use crate::limits::{JOBS, LIST_BYTES};
use crate::line::{BatchLine, is_header, job_in};
use pcf_values::Ident;
use std::alloc::Global;
use text_lines::{cut_line, is_end};

/// The jobs of a list, in turn, or the list's first fault.
///
/// A list has the line `batch 1`, at most `JOBS` lines `job B NAME`, and the line `end`, each with its line feed. B is a budget from 1 to
/// `JOB_BUDGET` without leading zeros, and NAME is what is left of the line: text, and not empty.
///
/// # Errors
///
/// It runs out of memory, and otherwise exactly the first fault of bytes that are no list.
pub fn read_batch(alloc: Global, bytes: &[u8]) -> Result<Vec<BatchLine>, BatchFault>
    ensures { MatchResult result (λ jobs. IsList bytes.now jobs.items) (λ fault. ReadAsList bytes.now (Err fault)) }
{
    if bytes.len() as u64 > LIST_BYTES {
        return Err(BatchFault::TooLong);
    }
    if bytes.len() == 0 {
        return Err(BatchFault::BadHeader);
    }
    let (line, rest) = cut_line(bytes);
    if !is_header(line) {
        return Err(BatchFault::BadHeader);
    }
    read_jobs(alloc, rest)
}

/// The jobs of the lines behind the header, or their first fault.
fn read_jobs(alloc: Global, bytes: &[u8]) -> Result<Vec<BatchLine>, BatchFault>
    requires { length bytes.now ≤ most_list_bytes }
    ensures { MatchResult result (λ jobs. WholeList 0 (lines bytes.now) jobs.items)
        (λ fault. (fault ≡ NoMemory) ⊎ FirstFault 0 2 (lines bytes.now) fault) }
{
    let mut jobs = Vec::new(alloc);
    match read_rest(alloc, bytes, 2, &mut jobs) {
        Ok(()) => Ok(jobs),
        Err(fault) => Err(fault),
    }
}

/// Adds the jobs of these lines, of which the first has this number, or answers their first fault.
fn read_rest(
    alloc: Global,
    bytes: &[u8],
    n: u32,
    jobs: &mut Vec<BatchLine>,
) -> Result<(), BatchFault>
    requires short { n + length bytes.now ≤ most_list_bytes + 2 }
    requires few { length jobs.old.items ≤ most_jobs }
    ensures { MatchResult result
        (λ _. (more : List BatchLine) × (jobs.new.items ≡ jobs.old.items ++ more)
        × WholeList (length jobs.old.items) (lines bytes.now) more)
        (λ fault. (fault ≡ NoMemory) ⊎ FirstFault (length jobs.old.items) n (lines bytes.now) fault) }
{
    if bytes.len() == 0 {
        return Err(BatchFault::NoEnd);
    }
    let (line, more) = cut_line(bytes);
    if is_end(line) {
        return if more.len() > 0 {
            Err(BatchFault::BadLine(n + 1))
        } else {
            Ok(())
        };
    }
    match read_job(alloc, line, n, jobs) {
        Ok(()) => read_rest(alloc, more, n + 1, jobs),
        Err(fault) => Err(fault),
    }
}

/// Adds the job of line n, or answers the line's fault, where it isn't the last.
fn read_job(alloc: Global, line: &[u8], n: u32, jobs: &mut Vec<BatchLine>) -> Result<(), BatchFault>
    requires few { length jobs.old.items ≤ most_jobs }
    ensures { MatchResult result
        (λ _. (job : BatchLine) × IsJobLine line.now job × (length jobs.old.items < most_jobs)
        × (jobs.new.items ≡ jobs.old.items ++ job ∷ []))
        (λ fault. LineFault (length jobs.old.items) n line.now fault) }
{
    let Some((budget, name)) = job_in(line) else {
        return Err(BatchFault::BadLine(n));
    };
    if jobs.len() >= JOBS as usize {
        return Err(BatchFault::TooMany(n));
    }
    let Ok(file) = Ident::from_text(alloc, name) else {
        return Err(BatchFault::NoMemory);
    };
    let Ok(()) = jobs.push(BatchLine { budget, file }) else {
        return Err(BatchFault::NoMemory);
    };
    Ok(())
}
