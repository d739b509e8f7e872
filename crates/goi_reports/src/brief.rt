//! The reports of runs that tell no list of moves.

ghost use Rattle.std.specs.Prelude.{◌≡◌, ◌++◌, IfOk, OnOk};
ghost use Rattle.goi_reports.specs.Forms.{IsDemoReport, IsReplayReport};
ghost use Rattle.goi_reports.specs.Reports.{demo_head, demo_report, replay_report};

use crate::line::{push_number_line, push_result};
use pcf_values::Val;
use std::alloc::{AllocError, Global};

/// The report of a schedule that was run: its answer, if it came to one, and how many moves it has.
///
/// # Errors
///
/// `AllocError` when memory runs out.
pub fn replay_report(alloc: Global, answer: Option<Val>, moves: u32) -> Result<Vec<u8>, AllocError>
    ensures report { IfOk result (λ v. v.items ≡ replay_report answer moves) }

    // So the text has the form of such a report.
    ensures form { IfOk result (λ v. IsReplayReport answer moves v.items) }
{
    let mut report = Vec::new(alloc);
    push_result(&mut report, answer, moves)?;
    Ok(report)
}

/// The report of the generated program of the number `n`, whose term has so many nodes, types not counted: the number, the nodes,
/// and then what a run of it tells.
///
/// # Errors
///
/// `AllocError` when memory runs out.
pub fn demo_report(
    alloc: Global,
    n: u32,
    nodes: u32,
    answer: Option<Val>,
    moves: u32,
) -> Result<Vec<u8>, AllocError>
    ensures report { IfOk result (λ v. v.items ≡ demo_report n nodes answer moves) }

    // So the text has the form of such a report.
    ensures form { IfOk result (λ v. IsDemoReport n nodes answer moves v.items) }
{
    let mut report = Vec::new(alloc);
    push_demo_head(&mut report, n, nodes)?;
    push_result(&mut report, answer, moves)?;
    Ok(report)
}

/// Appends the lines of a generated program: its number, and its nodes.
fn push_demo_head(report: &mut Vec<u8>, n: u32, nodes: u32) -> Result<(), AllocError>
    ensures { OnOk result (report.new.items ≡ report.old.items ++ demo_head n nodes) }
{
    push_number_line(report, b"demo ", n.into())?;
    push_number_line(report, b"nodes ", nodes.into())
}
