//! From the text of a program to the reports on its type and on its net.

ghost use Rattle.std.specs.Prelude.{◌≡◌, ◌≤◌, [], ℕ, IfOk, IfErr};
ghost use Rattle.pcf_values.specs.Named.{named_height};
ghost use Rattle.pcf_values.specs.Views.{named_of};
ghost use Rattle.program_runs.specs.Programs.{any_type, number, FaultyTree};
ghost use Rattle.goi_jobs.specs.declared.task.Task.TheVariants.{Check, ShowNet};
ghost use Rattle.goi_tasks.specs.Outputs.{output};
ghost use Rattle.goi_tasks.specs.Seen.{output_of};
ghost use Rattle.goi_tasks.specs.Programs.{FaultyText, IsProgramFault};
ghost use Rattle.goi_tasks.specs.Stops.{StopsFor};
ghost use Rattle.goi_tasks.specs.Tasks.{ReportsText};
ghost use Rattle.goi_tasks.specs.Parts.{ChecksTree};

use crate::report::{Report, plain};
use crate::stop::Stop;
use goi_reports::check_report;
use net_text::print_net;
use pcf_reader::{law_bounded, read_program};
use pcf_types::resolve_and_type;
use pcf_values::Named;
use program_runs::{Calling, net_for};
use std::alloc::Global;

/// The report on the type of a text's program, and with `term` on the program itself.
pub(crate) fn report_check(alloc: Global, bytes: &[u8], term: bool) -> Result<Report, Stop>
    ensures report { IfOk result (λ r. (workers : ℕ) → ReportsText workers (Check term) bytes.now (output_of r)) }
    ensures fault { IfErr result (λ e. StopsFor (FaultyText any_type bytes.now) e) }
{
    Ok(plain(alloc, check_text(alloc, bytes, term)?, 0))
}

/// The lines of that report.
fn check_text(alloc: Global, bytes: &[u8], term: bool) -> Result<Vec<u8>, Stop>
    ensures report { IfOk result (λ v. (workers : ℕ) → ReportsText workers (Check term) bytes.now (output 0 v.items [])) }
    ensures fault { IfErr result (λ e. StopsFor (FaultyText any_type bytes.now) e) }
{
    law_bounded();
    let tree = read_program(alloc, bytes)?;
    let report = check_tree(alloc, &tree, term);
    drop(tree);
    report
}

/// The report on the type of a tree.
fn check_tree(alloc: Global, tree: &Named, term: bool) -> Result<Vec<u8>, Stop>
    requires height { named_height (named_of tree.now) ≤ 2600 }
    ensures report { IfOk result (λ v. ChecksTree term (named_of tree.now) v.items) }
    ensures fault { IfErr result (λ e. StopsFor (IsProgramFault (FaultyTree any_type (named_of tree.now))) e) }
{
    let program = resolve_and_type(alloc, tree)?;
    let report = check_report(alloc, program.ty(), term, tree);
    drop(program);
    Ok(report?)
}

/// The listing of the net of a text's program, whose type is `nat`.
pub(crate) fn report_net(alloc: Global, bytes: &[u8]) -> Result<Report, Stop>
    ensures report { IfOk result (λ r. (workers : ℕ) → ReportsText workers ShowNet bytes.now (output_of r)) }
    ensures fault { IfErr result (λ e. StopsFor (FaultyText number bytes.now) e) }
{
    let net = net_for(alloc, bytes, Calling::ByName)?;
    let text = print_net(alloc, &net);
    drop(net);
    Ok(plain(alloc, text?, 0))
}
