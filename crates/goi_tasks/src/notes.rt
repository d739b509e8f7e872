//! The lines of a run's progress.

ghost use Rattle.std.specs.Prelude.{◌≡◌, ◌++◌, IfOk, OnOk, string_bytes};
ghost use Rattle.goi_tasks.specs.Notes.{progress_line, progress_lines};

use std::alloc::{AllocError, Global};

/// The lines of these counts, in turn.
pub(crate) fn progress_lines(alloc: Global, numbers: &[u64]) -> Result<Vec<u8>, AllocError>
    ensures { IfOk result (λ v. v.items ≡ progress_lines numbers.now) }
{
    let mut text = Vec::new(alloc);
    push_lines(alloc, &mut text, numbers)?;
    Ok(text)
}

/// Appends the lines of these counts.
fn push_lines(alloc: Global, text: &mut Vec<u8>, numbers: &[u64]) -> Result<(), AllocError>
    ensures { OnOk result (text.new.items ≡ text.old.items ++ progress_lines numbers.now) }
{
    match numbers {
        [] => Ok(()),
        [n, rest @ ..] => {
            push_line(alloc, text, *n)?;
            push_lines(alloc, text, rest)
        }
    }
}

/// Appends the line of a count.
fn push_line(alloc: Global, text: &mut Vec<u8>, n: u64) -> Result<(), AllocError>
    ensures { OnOk result (text.new.items ≡ text.old.items ++ progress_line n) }
{
    let line = line_of(alloc, n)?;
    text.extend_from_slice(line.as_bytes())?;
    Ok(())
}

/// The line of a count.
fn line_of(alloc: Global, n: u64) -> Result<String, AllocError>
    ensures { IfOk result (λ text. string_bytes text ≡ progress_line n) }
{
    format!(in alloc; "progress {n}\n")
}
