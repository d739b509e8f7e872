//! The answer to a list of programs.

ghost use Rattle.std.specs.Prelude.{◌≡◌, ◌≤◌, ◌++◌, ◌∷◌, [], ℕ, List, length, All, IsTrue, Option, IfOk, IfErr, OnOk};
ghost use Rattle.pcf_values.specs.Most.{most_program_bytes};
ghost use Rattle.batch_lists.specs.Limits.{most_job_budget, most_jobs};
ghost use Rattle.batch_lists.specs.Lists.{IsList};
ghost use Rattle.goi_jobs.specs.Ranges.{IsWorkers};
ghost use Rattle.goi_batches.specs.declared.judged.Judged.{Judged};
ghost use Rattle.goi_batches.specs.Judging.{IsJudged, AreJudged};
ghost use Rattle.goi_batches.specs.Sections.{Listed, listed};
ghost use Rattle.goi_batches.specs.Telling.{ReportsBatch};
ghost use Rattle.goi_engine.specs.Answers.{AnswersJob, AnswersLines, AnswersList, AreJudgedIn, LineFits, LinesFit, LoadedLines, NotLoaded};
ghost use Rattle.goi_engine.specs.Answers.{Says, stop_of_list};
ghost use Rattle.goi_jobs.specs.Jobs.{list};
ghost use Rattle.goi_engine.specs.FilesSeen.{Whatever, LoadedBy, OfFile};
ghost use Rattle.goi_world.specs.Seen.{FilesKept};
ghost use Rattle.goi_engine.specs.ListsSeen.{FaultyList, LacksOne, LoadedEach, LoadedList};

use crate::answer::{Answer, not_loaded, stopped};
use crate::load::{LoadError, load};
use batch_lists::{BatchFault, BatchLine, LIST_BYTES, read_batch};
use gate_workers::Gate;
use goi_batches::{Judged, judge_program, report_batch};
use goi_tasks::{Fault, Stop};
use goi_world::Files;
use pcf_values::limits::PROGRAM_BYTES;
use std::alloc::{AllocError, Global};
use std::sync::Wait;
use std::thread::Threads;

/// The answer to the programs that a file lists.
pub(crate) fn answer_batch<R: Threads + Wait + Sync, F: Files, G: Gate>(
    rt: &R,
    alloc: Global,
    files: &mut F,
    file: &str,
    workers: u32,
    gate: &G,
) -> Answer
    requires { IsWorkers workers }
    ensures kept { FilesKept (F.seen files.old) (F.seen files.new) }
    ensures answers { Whatever F.seen F.fits files.old files.new (λ old new. AnswersJob (list file.now workers) old new result) }
    ensures reads { (told : List ℕ → Option (List ℕ)) → F.fits files.new told →
        LoadedList F.reads (told file.now) file.now files.old files.new }
{
    match load(alloc, files, file, LIST_BYTES as u32) {
        Ok(bytes) => answer_list(rt, alloc, files, &bytes, workers, gate),
        Err(error) => not_loaded(error),
    }
}

/// The answer to the programs that a text lists.
fn answer_list<R: Threads + Wait + Sync, F: Files, G: Gate>(
    rt: &R,
    alloc: Global,
    files: &mut F,
    bytes: &[u8],
    workers: u32,
    gate: &G,
) -> Answer
    requires { IsWorkers workers }
    ensures kept { FilesKept (F.seen files.old) (F.seen files.new) }
    ensures answers { Whatever F.seen F.fits files.old files.new (λ old new. AnswersList workers bytes.now old new result) }
    ensures reads { LoadedLines F.reads bytes.now files.old files.new }
{
    match read_list(alloc, bytes) {
        Ok(lines) => answer_lines(rt, alloc, files, &lines, workers, gate),
        Err(answer) => answer,
    }
}

/// The lines of a list, or the answer where the text is none.
fn read_list(alloc: Global, bytes: &[u8]) -> Result<Vec<BatchLine>, Answer>
    ensures list { IfOk result (λ lines. IsList bytes.now lines.items) }
    ensures fit { IfOk result (λ lines. LinesFit lines.items) }
    ensures none { IfErr result (λ a. Says (λ o. ⊥) (FaultyList bytes.now) a) }
{
    match read_batch(alloc, bytes) {
        Ok(lines) => Ok(lines),
        Err(fault) => Err(stopped(alloc, stop_of(fault))),
    }
}

/// Why there is no list.
fn stop_of(fault: BatchFault) -> Stop
    ensures { result ≡ stop_of_list fault }
{
    match fault {
        BatchFault::NoMemory => Stop::Memory,
        _ => Stop::Fault(Fault::Batch(fault)),
    }
}

/// The answer to the programs of these lines.
fn answer_lines<R: Threads + Wait + Sync, F: Files, G: Gate>(
    rt: &R,
    alloc: Global,
    files: &mut F,
    lines: &[BatchLine],
    workers: u32,
    gate: &G,
) -> Answer
    requires workers { IsWorkers workers }
    requires fit { LinesFit lines.now }
    ensures kept { FilesKept (F.seen files.old) (F.seen files.new) }
    ensures answers { Whatever F.seen F.fits files.old files.new (λ old new. AnswersLines workers lines.now old new result) }
    ensures reads { LoadedEach F.reads lines.now files.old files.new }
{
    let mut programs = Vec::new(alloc);
    match load_programs(alloc, files, lines, &mut programs) {
        Ok(()) => answer_programs(rt, alloc, programs, workers, gate),
        Err(error) => not_loaded(error),
    }
}

/// The answer to programs that were judged.
fn answer_programs<R: Threads + Wait + Sync, G: Gate>(
    rt: &R,
    alloc: Global,
    programs: Vec<Judged>,
    workers: u32,
    gate: &G,
) -> Answer
    requires judged { (ps : List Listed) × AreJudged ps programs.items }
    requires few { length programs.items ≤ most_jobs }
    requires workers { IsWorkers workers }
    ensures { Says (λ o. (ps : List Listed) → AreJudged ps programs.items → ReportsBatch workers ps o) (λ f. ⊥) result }
{
    match report_batch(rt, alloc, programs, workers, gate) {
        Ok(report) => Answer::Prints(report),
        Err(_) => Answer::NoMemory,
    }
}

/// Loads and judges the programs of these lines one after another, and adds what each came to.
fn load_programs<F: Files>(
    alloc: Global,
    files: &mut F,
    lines: &[BatchLine],
    programs: &mut Vec<Judged>,
) -> Result<(), LoadError>
    requires { All LineFits lines.now }
    ensures kept { FilesKept (F.seen files.old) (F.seen files.new) }
    ensures judged { OnOk result ((more : List Judged) ×
        (programs.new.items ≡ programs.old.items ++ more) ×
        Whatever F.seen F.fits files.old files.new (λ old new. AreJudgedIn old lines.now more)) }
    ensures quiet { OnOk result ((F.seen files.new).faults ≡ (F.seen files.old).faults) }
    ensures not_loaded { IfErr result (NotLoaded (LacksOne (F.seen files.old) lines.now) (F.seen files.old) (F.seen files.new)) }
    ensures reads { LoadedEach F.reads lines.now files.old files.new }
{
    match lines {
        [] => Ok(()),
        [line, rest @ ..] => {
            add_program(alloc, files, line, programs)?;
            load_programs(alloc, files, rest, programs)
        }
    }
}

/// Loads and judges the program of a line, and adds what it came to.
fn add_program<F: Files>(
    alloc: Global,
    files: &mut F,
    line: &BatchLine,
    programs: &mut Vec<Judged>,
) -> Result<(), LoadError>
    requires { LineFits line.now }
    ensures kept { FilesKept (F.seen files.old) (F.seen files.new) }
    ensures judged { OnOk result ((j : Judged) × (programs.new.items ≡ programs.old.items ++ j ∷ []) ×
        Whatever F.seen F.fits files.old files.new (λ old new.
        OfFile old line.now.file (λ bytes. IsJudged (listed line.now.budget bytes) j))) }
    ensures quiet { OnOk result ((F.seen files.new).faults ≡ (F.seen files.old).faults) }
    ensures not_loaded { IfErr result (NotLoaded (IsTrue ((F.seen files.old).lacks line.now.file)) (F.seen files.old) (F.seen files.new)) }
    ensures reads { LoadedBy F.reads line.now.file most_program_bytes files.old files.new }
{
    let program = load_program(alloc, files, line)?;
    push_program(programs, program)?;
    Ok(())
}

/// Adds a program.
fn push_program(programs: &mut Vec<Judged>, program: Judged) -> Result<(), AllocError>
    ensures { OnOk result (programs.new.items ≡ programs.old.items ++ program ∷ []) }
{
    programs.push(program)?;
    Ok(())
}

/// Loads and judges the program of a line.
fn load_program<F: Files>(
    alloc: Global,
    files: &mut F,
    line: &BatchLine,
) -> Result<Judged, LoadError>
    requires { LineFits line.now }
    ensures kept { FilesKept (F.seen files.old) (F.seen files.new) }
    ensures judged { IfOk result (λ j. Whatever F.seen F.fits files.old files.new (λ old new.
        OfFile old line.now.file (λ bytes. IsJudged (listed line.now.budget bytes) j))) }
    ensures quiet { OnOk result ((F.seen files.new).faults ≡ (F.seen files.old).faults) }
    ensures not_loaded { IfErr result (NotLoaded (IsTrue ((F.seen files.old).lacks line.now.file)) (F.seen files.old) (F.seen files.new)) }
    ensures reads { LoadedBy F.reads line.now.file most_program_bytes files.old files.new }
{
    match load(alloc, files, line.file.as_str(), PROGRAM_BYTES as u32) {
        Ok(bytes) => judge_loaded(alloc, &bytes, line.budget),
        Err(error) => Err(error),
    }
}

/// Judges the text of a program.
fn judge_loaded(alloc: Global, bytes: &[u8], budget: u32) -> Result<Judged, LoadError>
    requires some { 1 ≤ budget }
    requires few { budget ≤ most_job_budget }
    ensures judged { IfOk result (IsJudged (listed budget bytes.now)) }
    ensures memory { IfErr result (λ e. e ≡ LoadError.Memory) }
{
    Ok(judge_program(alloc, bytes, budget)?)
}
