//! The answer to the words, as a value, before anything is written.

ghost use Rattle.std.specs.Prelude.{◌≡◌, ◌≤◌, ℕ, true, false, List, length, map, string_bytes, Some, IfOk, IfErr};
ghost use Rattle.pcf_values.specs.Most.{most_budget, most_workers, most_program_bytes, most_schedule_bytes};
ghost use Rattle.pcf_values.specs.Terms.{TermTree};
ghost use Rattle.interleave_laws.specs.Runs.{Runs};
ghost use Rattle.goi_words.specs.Asked.{job};
ghost use Rattle.goi_jobs.specs.Ranges.{IsDemo, IsWorkers};
ghost use Rattle.goi_jobs.specs.Jobs.{IsWithinLimits, job_of};
ghost use Rattle.goi_engine.specs.Answers.{Answers, AnswersJob, AnswersTask, AnswersSchedule, AnswersNoNet, MadeNet, Says, IsStopped};
ghost use Rattle.goi_jobs.specs.Jobs.{replay};
ghost use Rattle.goi_engine.specs.FilesSeen.{Whatever, LoadedBy};
ghost use Rattle.goi_world.specs.Seen.{FilesKept};
ghost use Rattle.metered_pool.specs.Progress.{IsProgress};
ghost use Rattle.net_runs.specs.IsRun.{IsRun, IsFirstWorkers};
ghost use Rattle.program_runs.specs.declared.calling.Calling.TheVariants.{ByName};
ghost use Rattle.program_runs.specs.Nets.{IsNetFor, RunsAs};
ghost use Rattle.program_runs.specs.Programs.{number};
ghost use Rattle.goi_tasks.specs.Parts.{NumbersOf};
ghost use Rattle.goi_tasks.specs.Programs.{FaultyText};
ghost use Rattle.goi_tasks.specs.Replaying.{ReportsReplay, FaultySchedule};
ghost use Rattle.goi_tasks.specs.RunReports.{ReportsDemo};
ghost use Rattle.goi_tasks.specs.Tasks.{ReportsText, FaultyFor, most_bytes};
ghost use Rattle.goi_jobs.specs.Tasks.{IsWithin, progress_of};
ghost use Rattle.goi_engine.specs.Verdicts.{LoadedBoth, ReadAsFits};

use crate::batching::answer_batch;
use crate::calling::answer_call;
use crate::load::{LoadError, load};
use crate::verilog::answer_verilog;
use gate_workers::Gate;
use goi_jobs::{Job, Shown, Task, Window, progress_of};
use goi_tasks::{
    Refusal, Report, Stop, Watched, most_bytes, refuse, report_demo, report_replay, report_text,
};
use goi_words::{WordFault, job_of};
use goi_world::Files;
use metered_pool::watch_net;
use net_build::Net;
use net_runs::run_net;
use pcf_values::limits::{PROGRAM_BYTES, SCHEDULE_BYTES};
use program_runs::{Calling, Crew, Several, net_for};
use std::alloc::{AllocError, Global};
use std::sync::Wait;
use std::thread::Threads;
use token_pool::Ended;

/// The answer to the words.
#[derive(Drop)]
pub(crate) enum Answer {
    /// All is done, and this is the report.
    Prints(Report),
    /// The program or the schedule has a fault, and this is the line that says so.
    Refused(Refusal),
    /// The words ask for nothing.
    BadWords,
    /// A file could not be read.
    NotRead,
    /// There was no memory.
    NoMemory,
}

/// Does the job that the words ask for, with the files that they name.
pub(crate) fn answer_to<R: Threads + Wait + Sync, F: Files, G: Gate>(
    rt: &R,
    alloc: Global,
    words: &[String],
    files: &mut F,
    gate: &G,
) -> Answer
    ensures kept { FilesKept (F.seen files.old) (F.seen files.new) }
    ensures answers { Whatever F.seen F.fits files.old files.new (λ old new. Answers (job (map string_bytes words.now)) old new result) }
    ensures reads { ReadAsFits F.reads F.fits (job (map string_bytes words.now)) files.old files.new }
{
    match job_of(alloc, words) {
        Ok(job) => {
            let answer = answer_job(rt, alloc, &job, files, gate);
            drop(job);
            answer
        }
        Err(WordFault::Refused) => Answer::BadWords,
        Err(WordFault::NoMemory) => Answer::NoMemory,
    }
}

/// The answer to a job.
fn answer_job<R: Threads + Wait + Sync, F: Files, G: Gate>(
    rt: &R,
    alloc: Global,
    job: &Job,
    files: &mut F,
    gate: &G,
) -> Answer
    requires { IsWithinLimits (job_of job.now) }
    ensures kept { FilesKept (F.seen files.old) (F.seen files.new) }
    ensures answers { Whatever F.seen F.fits files.old files.new (λ old new. AnswersJob (job_of job.now) old new result) }
    ensures reads { ReadAsFits F.reads F.fits (Some (job_of job.now)) files.old files.new }
{
    match job {
        Job::Text {
            file,
            workers,
            task,
        } => answer_run(rt, alloc, files, file.as_str(), *task, *workers, gate),
        Job::Replay {
            file,
            schedule,
            window,
        } => answer_replay(alloc, files, file.as_str(), schedule.as_str(), *window),
        Job::List { file, workers } => answer_batch(
            rt,
            alloc,
            files,
            file.as_str(),
            *workers,
            gate,
        ),
        Job::Demo { n, workers } => answer_demo(rt, alloc, *n, *workers, gate),
        Job::Call {
            file,
            numbers,
            workers,
            budget,
            schedule,
            tally,
        } => answer_call(
            rt,
            alloc,
            files,
            file.as_str(),
            numbers,
            *workers,
            *budget,
            Shown {
                schedule: *schedule,
                tally: *tally,
                progress: false,
            },
            gate,
        ),
        Job::Verilog {
            file,
            name,
            verilog,
        } => answer_verilog(alloc, files, file.as_str(), name.as_str(), *verilog),
    }
}

/// The answer to a task on the text of a file, by so many workers.
fn answer_run<R: Threads + Wait + Sync, F: Files, G: Gate>(
    rt: &R,
    alloc: Global,
    files: &mut F,
    file: &str,
    task: Task,
    workers: u32,
    gate: &G,
) -> Answer
    requires within { IsWithin task }
    requires workers { IsWorkers workers }
    ensures kept { FilesKept (F.seen files.old) (F.seen files.new) }
    ensures answers { Whatever F.seen F.fits files.old files.new (λ old new. AnswersTask workers task file.now old new result) }
    ensures reads { LoadedBy F.reads file.now (most_bytes task) files.old files.new }
{
    if progress_of(task) {
        answer_watched(rt, alloc, files, file, task, workers, gate)
    } else {
        answer_unwatched(rt, alloc, files, file, task, workers, gate)
    }
}

/// The same where the progress of the run isn't told.
fn answer_unwatched<R: Threads + Wait + Sync, F: Files, G: Gate>(
    rt: &R,
    alloc: Global,
    files: &mut F,
    file: &str,
    task: Task,
    workers: u32,
    gate: &G,
) -> Answer
    requires within { IsWithin task }
    requires workers { IsWorkers workers }
    requires unwatched { progress_of task ≡ false }
    ensures kept { FilesKept (F.seen files.old) (F.seen files.new) }
    ensures answers { Whatever F.seen F.fits files.old files.new (λ old new. AnswersTask workers task file.now old new result) }
    ensures reads { LoadedBy F.reads file.now (most_bytes task) files.old files.new }
{
    let run = |net: &Net, budget: u32| -> Result<Ended, AllocError>
        requires runs { Runs net.now }
        requires budget { (1 ≤ budget) × (budget ≤ most_budget) }
        requires workers { (1 ≤ workers) × (workers ≤ most_workers) }
        ensures run { IfOk result (λ e. IsRun net.now workers budget e.answer e.log.entries) }
        ensures alone { IfOk result (λ e. workers ≡ 1 → IsFirstWorkers net.now budget e.log.entries) }
    { run_net(rt, alloc, net, budget, workers, gate) };
    answer_task(alloc, files, file, task, &Several { workers, run })
}

/// The same where it is.
fn answer_watched<R: Threads + Wait + Sync, F: Files, G: Gate>(
    rt: &R,
    alloc: Global,
    files: &mut F,
    file: &str,
    task: Task,
    workers: u32,
    gate: &G,
) -> Answer
    requires within { IsWithin task }
    requires workers { IsWorkers workers }
    requires watched { progress_of task ≡ true }
    ensures kept { FilesKept (F.seen files.old) (F.seen files.new) }
    ensures answers { Whatever F.seen F.fits files.old files.new (λ old new. AnswersTask workers task file.now old new result) }
    ensures reads { LoadedBy F.reads file.now (most_bytes task) files.old files.new }
{
    let run = |net: &Net, budget: u32| -> Result<(Ended, Vec<u64>), AllocError>
        requires runs { Runs net.now }
        requires budget { (1 ≤ budget) × (budget ≤ most_budget) }
        requires workers { (1 ≤ workers) × (workers ≤ most_workers) }
        ensures run { IfOk result (λ x. IsRun net.now workers budget x.0.answer x.0.log.entries) }
        ensures alone { IfOk result (λ x. workers ≡ 1 → IsFirstWorkers net.now budget x.0.log.entries) }
        ensures progress { IfOk result (λ x. IsProgress (length x.0.log.entries) x.1.items) }
    { watch_net(rt, alloc, net, budget, workers, gate) };
    answer_task(alloc, files, file, task, &Watched { workers, run })
}

/// The answer to a task on the text of a file, where this crew runs what is run.
fn answer_task<F: Files, C: Crew>(
    alloc: Global,
    files: &mut F,
    file: &str,
    task: Task,
    crew: &C,
) -> Answer
    requires within { IsWithin task }
    requires fit { C.fit crew.now }
    requires workers { IsWorkers (C.count crew.now) }
    requires reads { (moves : ℕ) (numbers : List ℕ) → C.reads crew.now moves numbers → NumbersOf (progress_of task) moves numbers }
    ensures kept { FilesKept (F.seen files.old) (F.seen files.new) }
    ensures answers { Whatever F.seen F.fits files.old files.new (λ old new. AnswersTask (C.count crew.now) task file.now old new result) }
    ensures reads { LoadedBy F.reads file.now (most_bytes task) files.old files.new }
{
    match load(alloc, files, file, most_bytes(task)) {
        Ok(bytes) => answer_text(alloc, &bytes, task, crew),
        Err(error) => not_loaded(error),
    }
}

/// The answer where a file wasn't loaded.
pub(crate) fn not_loaded(error: LoadError) -> Answer
    ensures failed { error ≡ LoadError.Failed → result ≡ Answer.NotRead }
    ensures memory { error ≡ LoadError.Memory → result ≡ Answer.NoMemory }
{
    match error {
        LoadError::Failed => Answer::NotRead,
        LoadError::Memory => Answer::NoMemory,
    }
}

/// The answer where there is no report.
pub(crate) fn stopped(alloc: Global, stop: Stop) -> Answer
    ensures { IsStopped stop result }
{
    match stop {
        Stop::Fault(fault) => match refuse(alloc, fault) {
            Ok(refusal) => Answer::Refused(refusal),
            Err(_) => Answer::NoMemory,
        },
        Stop::Memory => Answer::NoMemory,
    }
}

/// The answer to a task on a text.
fn answer_text<C: Crew>(alloc: Global, bytes: &[u8], task: Task, crew: &C) -> Answer
    requires within { IsWithin task }
    requires fit { C.fit crew.now }
    requires workers { IsWorkers (C.count crew.now) }
    requires reads { (moves : ℕ) (numbers : List ℕ) → C.reads crew.now moves numbers → NumbersOf (progress_of task) moves numbers }
    ensures { Says (ReportsText (C.count crew.now) task bytes.now) (FaultyFor task bytes.now) result }
{
    match report_text(alloc, bytes, task, crew) {
        Ok(report) => Answer::Prints(report),
        Err(stop) => stopped(alloc, stop),
    }
}

/// The answer to a schedule on the net of a program.
fn answer_replay<F: Files>(
    alloc: Global,
    files: &mut F,
    file: &str,
    schedule: &str,
    window: Option<Window>,
) -> Answer
    ensures kept { FilesKept (F.seen files.old) (F.seen files.new) }
    ensures answers { Whatever F.seen F.fits files.old files.new (λ old new.
        AnswersJob (replay file.now schedule.now window) old new result) }
    ensures reads { LoadedBoth F.reads file.now schedule.now files.old files.new }
{
    match load_net(alloc, files, file) {
        Ok(net) => {
            let answer = answer_schedule(alloc, files, schedule, &net, window);
            drop(net);
            answer
        }
        Err(answer) => answer,
    }
}

/// The net of the program of a file, or the answer where there is none.
fn load_net<F: Files>(alloc: Global, files: &mut F, file: &str) -> Result<Net, Answer>
    ensures kept { FilesKept (F.seen files.old) (F.seen files.new) }
    ensures net { IfOk result (λ net. Whatever F.seen F.fits files.old files.new (λ old new. MadeNet file.now old new net)) }
    ensures none { IfErr result (λ a. Whatever F.seen F.fits files.old files.new (λ old new. AnswersNoNet file.now old new a)) }
    ensures reads { LoadedBy F.reads file.now most_program_bytes files.old files.new }
{
    match load(alloc, files, file, PROGRAM_BYTES as u32) {
        Ok(bytes) => make_net(alloc, &bytes),
        Err(error) => Err(not_loaded(error)),
    }
}

/// The net of the program of a text, or the answer where there is none.
fn make_net(alloc: Global, bytes: &[u8]) -> Result<Net, Answer>
    ensures net { IfOk result (λ net. IsNetFor ByName bytes.now net) }
    ensures none { IfErr result (λ a. Says (λ o. ⊥) (FaultyText number bytes.now) a) }
{
    match net_for(alloc, bytes, Calling::ByName) {
        Ok(net) => Ok(net),
        Err(none) => Err(stopped(alloc, Stop::from(none))),
    }
}

/// The answer to the schedule of a file, on the net of a program.
fn answer_schedule<F: Files>(
    alloc: Global,
    files: &mut F,
    file: &str,
    net: &Net,
    window: Option<Window>,
) -> Answer
    requires { Runs net.now }
    ensures kept { FilesKept (F.seen files.old) (F.seen files.new) }
    ensures answers { Whatever F.seen F.fits files.old files.new (λ old new. (t : TermTree) → RunsAs ByName t net.now →
        AnswersSchedule t window file.now old new result) }
    ensures reads { LoadedBy F.reads file.now most_schedule_bytes files.old files.new }
{
    match load(alloc, files, file, SCHEDULE_BYTES as u32) {
        Ok(bytes) => answer_moves(alloc, &bytes, net, window),
        Err(error) => not_loaded(error),
    }
}

/// The answer to the text of a schedule, on the net of a program.
fn answer_moves(alloc: Global, bytes: &[u8], net: &Net, window: Option<Window>) -> Answer
    requires { Runs net.now }
    ensures { (t : TermTree) → RunsAs ByName t net.now →
        Says (ReportsReplay t window bytes.now) (FaultySchedule t bytes.now) result }
{
    match report_replay(alloc, net, bytes, window) {
        Ok(report) => Answer::Prints(report),
        Err(stop) => stopped(alloc, stop),
    }
}

/// The answer with the run of the generated program of a number.
fn answer_demo<R: Threads + Wait + Sync, G: Gate>(
    rt: &R,
    alloc: Global,
    n: u32,
    workers: u32,
    gate: &G,
) -> Answer
    requires n { IsDemo n }
    requires workers { IsWorkers workers }
    ensures { Says (ReportsDemo n workers) (λ f. ⊥) result }
{
    let run = |net: &Net, budget: u32| -> Result<Ended, AllocError>
        requires runs { Runs net.now }
        requires budget { (1 ≤ budget) × (budget ≤ most_budget) }
        requires workers { (1 ≤ workers) × (workers ≤ most_workers) }
        ensures run { IfOk result (λ e. IsRun net.now workers budget e.answer e.log.entries) }
        ensures alone { IfOk result (λ e. workers ≡ 1 → IsFirstWorkers net.now budget e.log.entries) }
    { run_net(rt, alloc, net, budget, workers, gate) };
    match report_demo(alloc, n, &Several { workers, run }) {
        Ok(report) => Answer::Prints(report),
        Err(_) => Answer::NoMemory,
    }
}
