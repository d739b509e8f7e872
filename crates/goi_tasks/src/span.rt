//! The report of a run in rounds.

ghost use Rattle.std.specs.Prelude.{◌≡◌, ◌<◌, ◌^◌, ℕ, IfOk, IfErr, length};
ghost use Rattle.pcf_values.specs.Terms.{TermTree};
ghost use Rattle.interleave_laws.specs.Runs.{Runs};
ghost use Rattle.goi_jobs.specs.Ranges.{IsBudget};
ghost use Rattle.goi_reports.specs.Spans.{span_report};
ghost use Rattle.program_runs.specs.declared.calling.Calling.{Calling};
ghost use Rattle.program_runs.specs.Nets.{RunsAs};
ghost use Rattle.program_runs.specs.Programs.{wanted_by_run};
ghost use Rattle.goi_jobs.specs.declared.task.Task.TheVariants.{Span};
ghost use Rattle.goi_tasks.specs.Seen.{output_of};
ghost use Rattle.goi_tasks.specs.Programs.{FaultyText};
ghost use Rattle.goi_tasks.specs.Rounds.{ReportsSpan};
ghost use Rattle.goi_tasks.specs.Stops.{StopsFor};
ghost use Rattle.goi_tasks.specs.Tasks.{ReportsText};

use crate::report::{Report, plain};
use crate::running::status_of;
use crate::stop::Stop;
use goi_reports::{RoundParts, span_report};
use net_build::Net;
use program_runs::{Calling, net_for};
use round_runs::{Rounds, run_rounds};
use std::alloc::{AllocError, Global};

/// The report of a run in rounds of a text's program.
pub(crate) fn report_span(
    alloc: Global,
    bytes: &[u8],
    budget: u32,
    calling: Calling,
    parts: RoundParts,
) -> Result<Report, Stop>
    requires budget { IsBudget budget }
    ensures report { IfOk result (λ r. (workers : ℕ) →
        ReportsText workers (Span budget calling parts.profile parts.schedule) bytes.now (output_of r)) }
    ensures fault { IfErr result (λ e. StopsFor (FaultyText (wanted_by_run calling) bytes.now) e) }
{
    let net = net_for(alloc, bytes, calling)?;
    let report = report_rounds(alloc, &net, budget, parts);
    drop(net);
    Ok(report?)
}

/// The report of a run in rounds of a net.
fn report_rounds(
    alloc: Global,
    net: &Net,
    budget: u32,
    parts: RoundParts,
) -> Result<Report, AllocError>
    requires runs { Runs net.now }
    requires budget { IsBudget budget }
    ensures { IfOk result (λ r. (calling : Calling) (t : TermTree) → RunsAs calling t net.now →
        ReportsSpan budget calling parts.profile parts.schedule t (output_of r)) }
{
    let made = run_rounds(alloc, net, budget)?;
    let answer = made.answer;
    let text = rounds_text(alloc, &made, parts);
    drop(made);
    Ok(plain(alloc, text?, status_of(answer)))
}

/// The lines of rounds.
fn rounds_text(alloc: Global, made: &Rounds, parts: RoundParts) -> Result<Vec<u8>, AllocError>
    requires { length made.now.tickets.items < 2 ^ 32 }
    ensures { IfOk result (λ v. v.items ≡ span_report made.now.answer made.now.rounds made.now.tickets.items made.now.profile.items
        made.now.widest parts.profile parts.schedule) }
{
    span_report(
        alloc,
        made.answer,
        made.rounds,
        &made.tickets,
        &made.profile,
        made.widest,
        parts,
    )
}
