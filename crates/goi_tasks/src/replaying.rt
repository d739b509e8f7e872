//! The run of a schedule on a net.

ghost use Rattle.std.specs.Prelude.{◌≡◌, ◌≤◌, length, None, IfOk, IfErr};
ghost use Rattle.pcf_values.specs.Most.{most_moves};
ghost use Rattle.pcf_values.specs.Terms.{TermTree};
ghost use Rattle.interleave_laws.specs.Runs.{Runs};
ghost use Rattle.schedule_log.specs.Logs.{read_entries, tickets_in_log};
ghost use Rattle.program_runs.specs.declared.calling.Calling.TheVariants.{ByName};
ghost use Rattle.program_runs.specs.Nets.{RunsAs};
ghost use Rattle.program_runs.specs.Programs.{OfGround};
ghost use Rattle.walk_text.specs.Whole.{LeadsSomewhere};
ghost use Rattle.goi_tasks.specs.Seen.{output_of};
ghost use Rattle.goi_tasks.specs.Programs.{FaultyEither};
ghost use Rattle.goi_tasks.specs.Replaying.{ReportsReplay, FaultySchedule, IsReplayed, replay_text};
ghost use Rattle.goi_tasks.specs.Parts.{FaultyReplay};
ghost use Rattle.goi_tasks.specs.Stops.{StopsFor};

use crate::report::{Report, plain};
use crate::running::status_of;
use crate::stop::Stop;
use goi_jobs::Window;
use goi_reports::replay_report;
use net_build::Net;
use program_runs::{Calling, net_for};
use replay_check::{Replayed, replay};
use schedule_log::{Log, read_schedule};
use std::alloc::{AllocError, Global};
use walk_text::push_trace;

/// The report of the schedule that a text is, run on the net of a program, and behind it this part of its trace where it is asked for.
///
/// # Errors
///
/// The first fault of the schedule's text, or the first of its moves that isn't legal. Or it runs out of memory.
pub fn report_replay(
    alloc: Global,
    net: &Net,
    bytes: &[u8],
    window: Option<Window>,
) -> Result<Report, Stop>
    requires runs { Runs net.now }
    ensures report { IfOk result (λ r.
        (t : TermTree) → RunsAs ByName t net.now → ReportsReplay t window bytes.now (output_of r)) }
    ensures fault { IfErr result (λ e. StopsFor (λ f. (t : TermTree) → RunsAs ByName t net.now → FaultySchedule t bytes.now f) e) }
{
    let log = read_schedule(alloc, bytes)?;
    let report = report_log(alloc, net, &log, window);
    drop(log);
    report
}

/// The report of the schedule that the second text is, run on the net of the first one's program.
///
/// # Errors
///
/// The first fault of the program's text, or else that of the schedule. Or it runs out of memory.
pub fn replay_text(alloc: Global, bytes: &[u8], schedule: &[u8]) -> Result<Report, Stop>
    ensures report { IfOk result (λ r. OfGround bytes.now (λ t. ReportsReplay t None schedule.now (output_of r))) }
    ensures fault { IfErr result (λ e. StopsFor (λ f. FaultyEither bytes.now (λ t. FaultySchedule t schedule.now f) f) e) }
{
    let net = net_for(alloc, bytes, Calling::ByName)?;
    let report = report_replay(alloc, &net, schedule, None);
    drop(net);
    report
}

/// The report of a schedule.
fn report_log(alloc: Global, net: &Net, log: &Log, window: Option<Window>) -> Result<Report, Stop>
    requires runs { Runs net.now }
    requires few { length log.now.entries ≤ most_moves }
    requires told { log.now.entries ≡ read_entries (tickets_in_log log.now.entries) }
    ensures report { IfOk result (λ r. IsReplayed net.now window (tickets_in_log log.now.entries) (output_of r)) }
    ensures fault { IfErr result (λ e. StopsFor (FaultyReplay net.now (tickets_in_log log.now.entries)) e) }
{
    let replayed = replay(alloc, net, log)?;
    let text = told_replay(alloc, net, log, replayed, window)?;
    Ok(plain(alloc, text, status_of(replayed.answer)))
}

/// The lines of a replay, and this part of the trace of its log where it is asked for.
fn told_replay(
    alloc: Global,
    net: &Net,
    log: &Log,
    replayed: Replayed,
    window: Option<Window>,
) -> Result<Vec<u8>, AllocError>
    requires runs { Runs net.now }
    requires few { length log.now.entries ≤ most_moves }
    requires leads { LeadsSomewhere net.now log.now.entries }
    ensures { IfOk result (λ v. v.items ≡ replay_text window net.now log.now.entries replayed.answer replayed.moves) }
{
    let mut text = replay_report(alloc, replayed.answer, replayed.moves)?;
    if let Some(window) = window {
        push_trace(alloc, &mut text, net, log, window.from, window.most)?;
    }
    Ok(text)
}
