//! A caller whose devices are sure: what it may conclude of a run.

ghost use Rattle.std.specs.Prelude.{◌≡◌, ◌≢◌, ◌≤◌, ◌∷◌, [], ℕ, IsTrue, List, Some, map, string_bytes};
ghost use Rattle.goi_world.specs.FilesInMemory.{lacked_by};
ghost use Rattle.goi_world.specs.Failing.{none_listed};
ghost use Rattle.goi_world.specs.SinkInMemory.{sure_room};
ghost use Rattle.goi_words.specs.Asked.{job};
ghost use Rattle.goi_jobs.specs.Jobs.{text};
ghost use Rattle.goi_jobs.specs.Tasks.{nothing_shown};
ghost use Rattle.goi_jobs.specs.declared.task.Task.TheVariants.{Run};
ghost use Rattle.program_runs.specs.declared.calling.Calling.{Calling};
ghost use Rattle.goi_tasks.specs.Refusals.{most_line};

use gate_workers::Gate;
use goi_engine::goi;
use goi_world::{MemoryFiles, MemorySink};
use std::alloc::Global;
use std::sync::Wait;
use std::thread::Threads;

/// Runs a program of files in memory that never fail, with sinks in memory that have room for a line. Where neither schedule nor tally is
/// asked for, no write fails, and a file is not read only where there is none of its name.
pub fn run_surely<R: Threads + Wait + Sync, G: Gate>(
    rt: &R,
    alloc: Global,
    words: &[String],
    files: &mut MemoryFiles,
    out: &mut MemorySink,
    err: &mut MemorySink,
    gate: &G,
) -> u8
    requires files { IsTrue (none_listed files.old.fails) }
    requires out { most_line ≤ sure_room out.old }
    requires err { most_line ≤ sure_room err.old }
    ensures written { (file : List ℕ) (workers budget : ℕ) (calling : Calling) → job (map string_bytes words.now) ≡ Some
        (text file workers (Run budget calling nothing_shown)) → result ≢ 4 }
    ensures read { (file : List ℕ) (workers budget : ℕ) (calling : Calling) → job (map string_bytes words.now) ≡ Some
        (text file workers (Run budget calling nothing_shown)) → result ≡ 3 → IsTrue (lacked_by files.old file) }
{
    goi(rt, alloc, words, files, out, err, gate)
}
