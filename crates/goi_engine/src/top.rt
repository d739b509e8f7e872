//! The top call.

ghost use Rattle.std.specs.Prelude.{map, string_bytes};
ghost use Rattle.goi_engine.specs.FilesSeen.{Whatever};
ghost use Rattle.goi_engine.specs.Writes.{ByWrites};
ghost use Rattle.goi_words.specs.Asked.{job};
ghost use Rattle.goi_engine.specs.Calls.{call};
ghost use Rattle.goi_engine.specs.Promise.{Promise};
ghost use Rattle.goi_engine.specs.Verdicts.{ReadAsFits};

use crate::answer::answer_to;
use crate::deliver::deliver;
use batch_lists::law_one_list;
use function_runs::law_one_function;
use gate_workers::Gate;
use goi_tasks::law_one_listing;
use goi_world::{Files, Sink};
use program_runs::law_one_program;
use replay_check::law_one_replay;
use schedule_log::law_log_one_answer;
use std::alloc::Global;
use std::sync::Wait;
use std::thread::Threads;

/// Does what the words ask for, and gives the status.
///
/// The words begin with the program's own name, and an empty list asks for nothing. Files are read through `files`; a report goes to
/// `out`, and the line of a refusal to `err`. A run has as many workers as are asked for; several have threads of their own, and each
/// passes the gate before each of its pieces. The statuses:
///
/// - 0: all is done, and the report stands in `out`;
/// - 1: the program has a fault, which the line tells; or a program of a list has one, which the report tells;
/// - 2: the words ask for nothing;
/// - 3: a file could not be read;
/// - 4: `out` or `err` failed;
/// - 5: the program came to no value within the budget of moves, or the schedule to none, or a program of a list of which none has a
///   fault, which the report says;
/// - 6: there was no memory;
/// - 7: the schedule, the net file or the list has a fault, which the line tells.
pub fn goi<R: Threads + Wait + Sync, F: Files, O: Sink, E: Sink, G: Gate>(
    rt: &R,
    alloc: Global,
    words: &[String],
    files: &mut F,
    out: &mut O,
    err: &mut E,
    gate: &G,
) -> u8
    ensures promise { ByWrites O.seen O.writes out.old out.new (λ o. ByWrites E.seen E.writes err.old err.new (λ e.
        Whatever F.seen F.fits files.old files.new (λ old new.
        Promise (job (map string_bytes words.now)) (call old new o e) result))) }

    // The files are read for the job alone, and not too often.
    ensures reads { ReadAsFits F.reads F.fits (job (map string_bytes words.now)) files.old files.new }
{
    law_one_program();
    law_one_listing();
    law_log_one_answer();
    law_one_replay();
    law_one_list();
    law_one_function();
    let answer = answer_to(rt, alloc, words, files, gate);
    deliver(&answer, out, err)
}
