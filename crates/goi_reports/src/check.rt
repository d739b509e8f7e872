//! The report on a program's type.

ghost use Rattle.std.specs.Prelude.{◌≡◌, ◌++◌, IfOk, OnOk};
ghost use Rattle.pcf_values.specs.Views.{named_of, ty_of};
ghost use Rattle.goi_reports.specs.Forms.{IsCheckReport};
ghost use Rattle.goi_reports.specs.Reports.{check_report, term_line, type_line, where_asked};

use crate::line::push_line;
use pcf_reader::{print_term, print_ty};
use pcf_values::{Named, Ty};
use std::alloc::{AllocError, Global};

/// The report on a program's type, and with `term` on the program itself.
///
/// # Errors
///
/// `AllocError` when memory runs out.
pub fn check_report(alloc: Global, ty: &Ty, term: bool, tree: &Named) -> Result<Vec<u8>, AllocError>
    ensures report { IfOk result (λ v. v.items ≡ check_report (ty_of ty.now) term (named_of tree.now)) }

    // So the text has the form of such a report.
    ensures form { IfOk result (λ v. IsCheckReport term v.items) }
{
    let mut report = Vec::new(alloc);
    push_type_line(alloc, &mut report, ty)?;
    push_asked_term(alloc, &mut report, term, tree)?;
    Ok(report)
}

/// Appends the line of a program, where it is asked for.
fn push_asked_term(
    alloc: Global,
    report: &mut Vec<u8>,
    term: bool,
    tree: &Named,
) -> Result<(), AllocError>
    ensures { OnOk result (report.new.items ≡ report.old.items ++ where_asked term (term_line (named_of tree.now))) }
{
    if term {
        push_term_line(alloc, report, tree)?;
    }
    Ok(())
}

/// Appends the line of a type.
fn push_type_line(alloc: Global, report: &mut Vec<u8>, ty: &Ty) -> Result<(), AllocError>
    ensures { OnOk result (report.new.items ≡ report.old.items ++ type_line (ty_of ty.now)) }
{
    let text = print_ty(alloc, ty)?;
    push_line(report, b"type ", &text)
}

/// Appends the line of a program.
fn push_term_line(alloc: Global, report: &mut Vec<u8>, tree: &Named) -> Result<(), AllocError>
    ensures { OnOk result (report.new.items ≡ report.old.items ++ term_line (named_of tree.now)) }
{
    let text = print_term(alloc, tree)?;
    push_line(report, b"term ", &text)
}
