//! The answer to a call of a function.

ghost use Rattle.std.specs.Prelude.{◌≡◌, ◌≤◌, ℕ, List, false, length, IfOk};
ghost use Rattle.pcf_values.specs.Most.{most_budget, most_workers, most_program_bytes};
ghost use Rattle.interleave_laws.specs.Runs.{Runs};
ghost use Rattle.net_runs.specs.IsRun.{IsRun, IsFirstWorkers};
ghost use Rattle.goi_jobs.specs.Ranges.{IsBudget, IsWorkers};
ghost use Rattle.goi_world.specs.Seen.{FilesKept};
ghost use Rattle.goi_tasks.specs.Calls.{ReportsCall, FaultyCall};
ghost use Rattle.goi_tasks.specs.Parts.{NumbersOf};
ghost use Rattle.goi_engine.specs.Answers.{AnswersFile, Says};
ghost use Rattle.goi_engine.specs.FilesSeen.{Whatever, LoadedBy};

use crate::answer::{Answer, not_loaded, stopped};
use crate::load::load;
use gate_workers::Gate;
use goi_jobs::Shown;
use goi_tasks::report_call;
use goi_world::Files;
use net_build::Net;
use net_runs::run_net;
use pcf_values::limits::PROGRAM_BYTES;
use program_runs::{Crew, Several};
use std::alloc::{AllocError, Global};
use std::sync::Wait;
use std::thread::Threads;
use token_pool::Ended;

/// The answer to a call of the function of a file at numbers, by so many workers within a budget of moves. Its progress isn't told.
pub(crate) fn answer_call<R: Threads + Wait + Sync, F: Files, G: Gate>(
    rt: &R,
    alloc: Global,
    files: &mut F,
    file: &str,
    numbers: &[u64],
    workers: u32,
    budget: u32,
    shown: Shown,
    gate: &G,
) -> Answer
    requires workers { IsWorkers workers }
    requires budget { IsBudget budget }
    requires unwatched { shown.progress ≡ false }
    ensures kept { FilesKept (F.seen files.old) (F.seen files.new) }
    ensures answers { Whatever F.seen F.fits files.old files.new (λ old new.
        AnswersFile (ReportsCall workers budget shown numbers.now) (FaultyCall numbers.now) file.now old new result) }
    ensures reads { LoadedBy F.reads file.now most_program_bytes files.old files.new }
{
    let run = |net: &Net, budget: u32| -> Result<Ended, AllocError>
        requires runs { Runs net.now }
        requires budget { (1 ≤ budget) × (budget ≤ most_budget) }
        requires workers { (1 ≤ workers) × (workers ≤ most_workers) }
        ensures run { IfOk result (λ e. IsRun net.now workers budget e.answer e.log.entries) }
        ensures alone { IfOk result (λ e. workers ≡ 1 → IsFirstWorkers net.now budget e.log.entries) }
    { run_net(rt, alloc, net, budget, workers, gate) };
    call_file(
        alloc,
        files,
        file,
        numbers,
        budget,
        shown,
        &Several { workers, run },
    )
}

/// The answer to a call of the function of a file, where this crew runs it.
fn call_file<F: Files, C: Crew>(
    alloc: Global,
    files: &mut F,
    file: &str,
    numbers: &[u64],
    budget: u32,
    shown: Shown,
    crew: &C,
) -> Answer
    requires budget { IsBudget budget }
    requires fit { C.fit crew.now }
    requires workers { IsWorkers (C.count crew.now) }
    requires reads { (moves : ℕ) (read : List ℕ) → C.reads crew.now moves read → NumbersOf shown.progress moves read }
    ensures kept { FilesKept (F.seen files.old) (F.seen files.new) }
    ensures answers { Whatever F.seen F.fits files.old files.new (λ old new.
        AnswersFile (ReportsCall (C.count crew.now) budget shown numbers.now) (FaultyCall numbers.now) file.now old new result) }
    ensures reads { LoadedBy F.reads file.now most_program_bytes files.old files.new }
{
    match load(alloc, files, file, PROGRAM_BYTES as u32) {
        Ok(bytes) => call_text(alloc, &bytes, numbers, budget, shown, crew),
        Err(error) => not_loaded(error),
    }
}

/// The answer to a call of a text's function.
fn call_text<C: Crew>(
    alloc: Global,
    bytes: &[u8],
    numbers: &[u64],
    budget: u32,
    shown: Shown,
    crew: &C,
) -> Answer
    requires budget { IsBudget budget }
    requires fit { C.fit crew.now }
    requires workers { IsWorkers (C.count crew.now) }
    requires reads { (moves : ℕ) (read : List ℕ) → C.reads crew.now moves read → NumbersOf shown.progress moves read }
    ensures { Says (ReportsCall (C.count crew.now) budget shown numbers.now bytes.now) (FaultyCall numbers.now bytes.now) result }
{
    match report_call(alloc, bytes, numbers, budget, shown, crew) {
        Ok(report) => Answer::Prints(report),
        Err(stop) => stopped(alloc, stop),
    }
}
