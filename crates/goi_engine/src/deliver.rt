//! Writing what was answered.

ghost use Rattle.std.specs.Prelude.{◌≡◌, ◌⊎◌, MatchResult};
ghost use Rattle.goi_tasks.specs.Seen.{output_of};
ghost use Rattle.goi_tasks.specs.Refusals.{memory_line};
ghost use Rattle.goi_engine.specs.Writes.{ByWrites, Wrote, Broke};
ghost use Rattle.goi_engine.specs.Delivers.{Reported, Delivered};

use crate::answer::Answer;
use goi_tasks::Report;
use goi_world::{Failed, Sink};

/// Writes a text whole, or a prefix of it before a failure. Behind a failed write nothing more is offered.
pub(crate) fn write_all<S: Sink>(out: &mut S, text: &[u8]) -> Result<(), Failed>
    ensures { ByWrites S.seen S.writes out.old out.new (λ turn. MatchResult result (λ _. Wrote text.now turn) (λ _. Broke text.now turn)) }
{
    let mut rest = text;
    while !rest.is_empty() {
        match out.write(rest) {
            Ok(count) => rest = rest.split_at(count).1,
            Err(failed) => return Err(failed),
        }
    }
    Ok(())
}

/// Writes the report to `out`, or the line of a refusal to `err`, and gives the status.
pub(crate) fn deliver<O: Sink, E: Sink>(answer: &Answer, out: &mut O, err: &mut E) -> u8
    ensures { ByWrites O.seen O.writes out.old out.new (λ o. ByWrites E.seen E.writes err.old err.new (λ e.
        Delivered answer.now o e result)) }
{
    match answer {
        Answer::Prints(report) => print(out, err, report),
        Answer::Refused(refusal) => tell(err, refusal.status, &refusal.line),
        Answer::BadWords => tell(err, 2, b"refused words\n"),
        Answer::NotRead => tell(err, 3, b"read failed\n"),
        Answer::NoMemory => tell_no_memory(err),
    }
}

/// Says on `err` that there was no memory, and gives the status: 6, or 4 where that can't be written.
pub fn tell_no_memory<E: Sink>(err: &mut E) -> u8
    ensures { ByWrites E.seen E.writes err.old err.new (λ turn.
        ((result ≡ 6) × Wrote memory_line turn) ⊎ ((result ≡ 4) × Broke memory_line turn)) }
{
    tell(err, 6, b"no memory\n")
}

/// Writes the report to `out` and its notes to `err`, and gives its status; or says on `err` that `out` failed.
fn print<O: Sink, E: Sink>(out: &mut O, err: &mut E, report: &Report) -> u8
    ensures { ByWrites O.seen O.writes out.old out.new (λ o. ByWrites E.seen E.writes err.old err.new (λ e.
        Reported (output_of report.now) o e result)) }
{
    match write_all(out, &report.text) {
        Ok(()) => tell(err, report.status, &report.notes),
        Err(_) => {
            let _ = write_all(err, b"write failed\n");
            4
        }
    }
}

/// Writes the line of a refusal, or the notes of a report, and gives the status that goes with it.
fn tell<E: Sink>(err: &mut E, status: u8, line: &[u8]) -> u8
    ensures { ByWrites E.seen E.writes err.old err.new (λ turn.
        ((result ≡ status) × Wrote line.now turn) ⊎ ((result ≡ 4) × Broke line.now turn)) }
{
    match write_all(err, line) {
        Ok(()) => status,
        Err(_) => 4,
    }
}
