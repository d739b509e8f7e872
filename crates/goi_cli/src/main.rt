//! The program: it hands the runtime, the words of the process, the files of the system, its standard streams and an open gate to the
//! top call, and ends with the status that this answers.
#![tactic(auto)]

ghost use Rattle.std.specs.Prelude.{◌≡◌, map, string_bytes};
ghost use Rattle.goi_world.specs.FilesOnDisk.{unread_files};
ghost use Rattle.goi_world.specs.SinkOfWriter.{unwritten};
ghost use Rattle.goi_engine.specs.OnSystem.{SystemRuns, SystemCalls};

use gate_workers::OpenGate;
use goi_engine::{goi, tell_no_memory};
use goi_world::{DiskFiles, StdSink};
use std::io::Write;
use std::process::ExitCode;
use std::rt::{Env, Files};
use std::sync::Wait;
use std::thread::Threads;
use std::{env, io};

/// Calls `goi` on what the process was given, and ends with its status.
fn main(rt: HostRuntime) -> ExitCode {
    let alloc = rt.alloc();
    let mut files = DiskFiles::new(&rt);
    let mut out = StdSink::over(rt.stdout());
    let mut err = StdSink::over(rt.stderr());
    let words = match words_of(&rt) {
        Ok(words) => words,
        Err(error) if error.kind() == io::ErrorKind::OutOfMemory => {
            return ExitCode::from(tell_no_memory(&mut err));
        }
        // Words that aren't text ask for nothing, as no words do.
        Err(_) => Vec::new(alloc),
    };
    ExitCode::from(answer(&rt, &words, &mut files, &mut out, &mut err))
}

/// Does what the words ask for, and gives the status. Of a plain run by name and of a plain call: with status 0, 5 or 1 what the two
/// writers took is what the bytes come to that the system's reads gave.
fn answer<R: Files + AllocGlobal + Threads + Wait + Sync, O: Write, E: Write>(
    rt: &R,
    words: &[String],
    files: &mut DiskFiles<'_, R>,
    out: &mut StdSink<O>,
    err: &mut StdSink<E>,
) -> u8
    requires files { files.old ≡ unread_files }
    requires out { out.old ≡ unwritten }
    requires err { err.old ≡ unwritten }
    ensures runs { SystemRuns (map string_bytes words.now) files.new out.new err.new result }
    ensures calls { SystemCalls (map string_bytes words.now) files.new out.new err.new result }
{
    goi(rt, rt.alloc(), words, files, out, err, &OpenGate)
}

/// The words of the process, its own name first.
fn words_of<R: Env + AllocGlobal>(rt: &R) -> io::Result<Vec<String>> {
    Ok(env::args(rt)?.collect(rt.alloc())?)
}
