//! The report of what a program's circuit needs.

ghost use Rattle.std.specs.Prelude.{◌≡◌, IfOk};
ghost use Rattle.goi_reports.specs.Needs.{needs_report, no_row_report};

use crate::line::{push_number_line, push_result};
use pcf_values::Val;
use std::alloc::{AllocError, Global};

/// The report of what a circuit needs: the answer of the run, if it came to one, after how many moves, how many cells and forks the
/// circuit needs for them, and how many cycles it takes.
///
/// # Errors
///
/// `AllocError` when memory runs out.
pub fn needs_report(
    alloc: Global,
    answer: Option<Val>,
    moves: u32,
    cells: u64,
    forks: u64,
    cycles: u64,
) -> Result<Vec<u8>, AllocError>
    ensures { IfOk result (λ v. v.items ≡ needs_report answer moves cells forks cycles) }
{
    let mut report = Vec::new(alloc);
    push_result(&mut report, answer, moves)?;
    push_number_line(&mut report, b"cells ", cells)?;
    push_number_line(&mut report, b"forks ", forks)?;
    push_number_line(&mut report, b"cycles ", cycles)?;
    Ok(report)
}

/// The report of a circuit that has no row for what it meets: the answer of the program's run, if it came to one, after how many moves.
///
/// # Errors
///
/// `AllocError` when memory runs out.
pub fn no_row_report(alloc: Global, answer: Option<Val>, moves: u32) -> Result<Vec<u8>, AllocError>
    ensures { IfOk result (λ v. v.items ≡ no_row_report answer moves) }
{
    let mut report = Vec::new(alloc);
    push_result(&mut report, answer, moves)?;
    report.extend_from_slice(b"no row\n")?;
    Ok(report)
}
