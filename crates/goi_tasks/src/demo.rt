//! The run of the generated program.

ghost use Rattle.std.specs.Prelude.{◌≡◌, IfOk};
ghost use Rattle.pcf_values.specs.Terms.{size};
ghost use Rattle.cbn_meaning.specs.Meaning.{Means};
ghost use Rattle.net_build.specs.NetOf.{net_of};
ghost use Rattle.demo_text.specs.Demo.{demo_term};
ghost use Rattle.goi_jobs.specs.Ranges.{IsDemo};
ghost use Rattle.program_runs.specs.Runs.{IsProgramRun};
ghost use Rattle.goi_tasks.specs.Seen.{output_of};
ghost use Rattle.goi_tasks.specs.RunReports.{ReportsDemo, demo_budget};

use crate::report::{Report, plain};
use crate::running::status_of;
use demo_text::{demo_text, law_demo_is_typed, law_demo_size};
use goi_reports::demo_report;
use program_runs::{Calling, Crew, NoRun, law_one_program, run_text};
use std::alloc::{AllocError, Global};
use token_pool::Ended;

/// How many moves the run of a generated program is allowed.
const BUDGET: u32 = 1_000_000;

/// The report of a run of the generated program of a number.
///
/// # Errors
///
/// It runs out of memory.
pub fn report_demo<C: Crew>(alloc: Global, n: u32, crew: &C) -> Result<Report, AllocError>
    requires n { IsDemo n }
    requires fit { C.fit crew.now }
    ensures { IfOk result (λ r. ReportsDemo n (C.count crew.now) (output_of r)) }
{
    let ended = demo_ended(alloc, n, crew)?;
    let answer = ended.answer;
    let text = demo_report(alloc, n, nodes_of(n), answer, ended.log.len());
    drop(ended);
    Ok(plain(alloc, text?, status_of(answer)))
}

/// The run of the generated program of a number.
fn demo_ended<C: Crew>(alloc: Global, n: u32, crew: &C) -> Result<Ended, AllocError>
    requires n { IsDemo n }
    requires fit { C.fit crew.now }
    ensures { IfOk result (λ r.
        IsProgramRun (Means (demo_term n)) (net_of (demo_term n)) (C.count crew.now) demo_budget r.answer r.log.entries) }
{
    law_demo_is_typed();
    law_one_program();
    let text = demo_text(alloc, n)?;
    match run_text(alloc, &text, BUDGET, Calling::ByName, crew) {
        Ok(ended) => Ok(ended),
        Err(NoRun::Memory) => Err(AllocError),
        Err(NoRun::Fault(_)) => unreachable!(),
    }
}

/// The nodes of the generated program of a number, types not counted.
fn nodes_of(n: u32) -> u32
    requires { IsDemo n }
    ensures { result ≡ size (demo_term n) }
{
    law_demo_size();
    4 * 2u32.pow(n) + 5
}
