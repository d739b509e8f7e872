//! What is told of each program behind the run.

ghost use Rattle.std.specs.Prelude.{◌≡◌, ◌<◌, ◌+◌, ◌^◌, ◌++◌, ◌∷◌, [], length, IfOk, OnOk, string_bytes};
ghost use Rattle.goi_jobs.specs.Ranges.{IsWorkers};
ghost use Rattle.goi_reports.specs.Forms.{AnswerFits};
ghost use Rattle.goi_reports.specs.Booked.{BookedWithin};
ghost use Rattle.goi_batches.specs.Sections.{sections_from, statuses_of, job_line, some_is, batch_status};
ghost use Rattle.goi_batches.specs.Telling.{end_section, first_section, rest_of, told_by, FitFirst, Fit, FirstFits, EachFits};

use goi_reports::{Parts, run_report};
use goi_tasks::status_of;
use std::alloc::{AllocError, Global};
use token_pool::Ended;

/// Appends what is told of programs, of which the first has this number, and the status of each: by their marks, and by the ends of
/// those that ran.
pub(crate) fn push_sections(
    alloc: Global,
    marks: &[Option<Vec<u8>>],
    ends: &[Ended],
    text: &mut Vec<u8>,
    statuses: &mut Vec<u8>,
    n: u32,
    workers: u32,
) -> Result<(), AllocError>
    requires workers { IsWorkers workers }
    requires few { n + length marks.now < 2 ^ 32 }
    requires fit { Fit workers marks.now ends.now }
    ensures text { OnOk result (text.new.items ≡ text.old.items ++ sections_from n (told_by workers marks.now ends.now)) }
    ensures statuses { OnOk result (statuses.new.items ≡ statuses.old.items ++ statuses_of (told_by workers marks.now ends.now)) }
    ensures fits { OnOk result (EachFits marks.now ends.now) }
{
    match marks {
        [] => Ok(()),
        [mark, more @ ..] => {
            push_line(alloc, text, n)?;
            let rest = push_first(alloc, mark, ends, text, statuses, workers)?;
            push_sections(alloc, more, rest, text, statuses, n + 1, workers)
        }
    }
}

/// Appends what is told of the program with this mark, and its status; and answers the ends of the others.
fn push_first<'a>(
    alloc: Global,
    mark: &Option<Vec<u8>>,
    ends: &'a [Ended],
    text: &mut Vec<u8>,
    statuses: &mut Vec<u8>,
    workers: u32,
) -> Result<&'a [Ended], AllocError>
    requires workers { IsWorkers workers }
    requires fit { FitFirst workers mark.now ends.now }
    ensures rest { IfOk result (λ rest. rest.now ≡ rest_of mark.now ends.now) }
    ensures text { OnOk result (text.new.items ≡ text.old.items ++ (first_section workers mark.now ends.now).text) }
    ensures statuses { OnOk result (statuses.new.items ≡ statuses.old.items ++ (first_section workers mark.now ends.now).status ∷ []) }
    ensures fits { OnOk result (FirstFits mark.now ends.now) }
{
    match mark {
        Some(line) => {
            push_section(text, statuses, line, 1)?;
            Ok(ends)
        }
        None => match ends {
            [] => unreachable!(),
            [end, rest @ ..] => {
                push_end(alloc, end, text, statuses, workers)?;
                Ok(rest)
            }
        },
    }
}

/// Appends what is told of a run, and its status.
fn push_end(
    alloc: Global,
    end: &Ended,
    text: &mut Vec<u8>,
    statuses: &mut Vec<u8>,
    workers: u32,
) -> Result<(), AllocError>
    requires workers { IsWorkers workers }
    requires booked { BookedWithin workers end.now.log.entries }
    ensures text { OnOk result (text.new.items ≡ text.old.items ++ (end_section workers end.now).text) }
    ensures statuses { OnOk result (statuses.new.items ≡ statuses.old.items ++ (end_section workers end.now).status ∷ []) }
    ensures fits { OnOk result (AnswerFits end.now.answer) }
{
    let report = run_report(
        alloc,
        end.answer,
        &end.log,
        workers,
        Parts {
            schedule: false,
            tally: false,
        },
    )?;
    push_section(text, statuses, &report, status_of(end.answer))
}

/// Appends a text and a status.
fn push_section(
    text: &mut Vec<u8>,
    statuses: &mut Vec<u8>,
    section: &[u8],
    status: u8,
) -> Result<(), AllocError>
    ensures text { OnOk result (text.new.items ≡ text.old.items ++ section.now) }
    ensures status { OnOk result (statuses.new.items ≡ statuses.old.items ++ status ∷ []) }
{
    text.extend_from_slice(section)?;
    statuses.push(status)?;
    Ok(())
}

/// Appends the line of a program's number.
fn push_line(alloc: Global, text: &mut Vec<u8>, n: u32) -> Result<(), AllocError>
    ensures { OnOk result (text.new.items ≡ text.old.items ++ job_line n) }
{
    let line = line_of(alloc, n)?;
    text.extend_from_slice(line.as_bytes())
}

/// The line of a program's number.
fn line_of(alloc: Global, n: u32) -> Result<String, AllocError>
    ensures { IfOk result (λ text. string_bytes text ≡ job_line n) }
{
    format!(in alloc; "job {n}\n")
}

/// 1 where a program is refused, else 5 where one has no value, and else 0.
pub(crate) fn batch_status(statuses: &[u8]) -> u8
    ensures { result ≡ batch_status statuses.now }
{
    if some_is(statuses, 1) {
        1
    } else if some_is(statuses, 5) {
        5
    } else {
        0
    }
}

/// Whether one of the statuses is this one.
fn some_is(statuses: &[u8], status: u8) -> bool
    ensures { result ≡ some_is status statuses.now }
{
    match statuses {
        [] => false,
        [first, rest @ ..] => *first == status || some_is(rest, status),
    }
}
