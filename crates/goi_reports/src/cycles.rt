//! The report of a circuit's run.

ghost use Rattle.std.specs.Prelude.{◌≡◌, ◌++◌, IfOk, OnOk, codes};
ghost use Rattle.goi_reports.specs.Cycles.{cycles_report};
ghost use Rattle.goi_reports.specs.Reports.{where_asked};

use crate::line::{push_number_line, push_value_line};
use pcf_values::Val;
use std::alloc::{AllocError, Global};

/// The report of a circuit's run: its answer, if it came to one, in how many cycles, and that it is full where it is.
///
/// # Errors
///
/// `AllocError` when memory runs out.
pub fn cycles_report(
    alloc: Global,
    answer: Option<Val>,
    cycles: u64,
    full: bool,
) -> Result<Vec<u8>, AllocError>
    ensures { IfOk result (λ v. v.items ≡ cycles_report answer cycles full) }
{
    let mut report = Vec::new(alloc);
    push_value_line(&mut report, answer)?;
    push_number_line(&mut report, b"cycles ", cycles)?;
    push_full_line(&mut report, full)?;
    Ok(report)
}

/// Appends the line of a circuit that is full, where it is.
fn push_full_line(report: &mut Vec<u8>, full: bool) -> Result<(), AllocError>
    ensures { OnOk result (report.new.items ≡ report.old.items ++ where_asked full (codes "full\n")) }
{
    if full {
        report.extend_from_slice(b"full\n")?;
    }
    Ok(())
}
