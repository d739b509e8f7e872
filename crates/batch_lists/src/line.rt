//! One line of a list of jobs.

ghost use Rattle.std.specs.Prelude.{◌≡◌, ◌↔◌, ◌<◌, ◌≤◌, ◌++◌, ℕ, List, length, codes, IsTrue, MatchOption};
ghost use Rattle.std.specs.Str.{IsUtf8};
ghost use Rattle.batch_lists.specs.declared.line.BatchLine.{BatchLine};
ghost use Rattle.batch_lists.specs.Lists.{IsJobLine, list_header};
ghost use Rattle.batch_lists.specs.Scanning.{IsBudgetIn, IsNameIn};

use crate::limits::JOB_BUDGET;
use pcf_values::Ident;
use text_lines::number_in;

/// What a line of a list says of a job: its budget, and the name of its program's file.
#[derive(Drop)]
pub struct BatchLine {
    /// The most moves of the job's run.
    pub budget: u32,
    /// The file's name, which is text and not empty.
    pub file: Ident,
}

/// Whether the line is the header.
pub(crate) fn is_header(line: &[u8]) -> bool
    ensures { IsTrue result ↔ (line.now ≡ list_header) }
{
    line == b"batch 1\n".as_slice()
}

/// What stands behind `job` and a space.
fn behind_job(line: &[u8]) -> Option<&[u8]>
    ensures { MatchOption result ((rest : List ℕ) → line.now ≡ codes "job " ++ rest → ⊥) (λ rest. line.now ≡ codes "job " ++ rest.now) }
{
    match line {
        [b'j', b'o', b'b', b' ', rest @ ..] => Some(rest),
        _ => None,
    }
}

/// What stands behind a space.
fn behind_space(bytes: &[u8]) -> Option<&[u8]>
    ensures { MatchOption result ((rest : List ℕ) → bytes.now ≡ codes " " ++ rest → ⊥) (λ rest. bytes.now ≡ codes " " ++ rest.now) }
{
    match bytes {
        [b' ', rest @ ..] => Some(rest),
        _ => None,
    }
}

/// A budget with the space behind it, and what stands behind that.
fn budget_in(bytes: &[u8]) -> Option<(u32, &[u8])>
    ensures { MatchOption result ((n : ℕ) (rest : List ℕ) → IsBudgetIn bytes.now n rest → ⊥) (λ p. IsBudgetIn bytes.now p.0 p.1.now) }
{
    let Some((value, more)) = number_in(bytes) else {
        return None;
    };
    if value == 0 || value > JOB_BUDGET as u64 {
        return None;
    }
    match behind_space(more) {
        Some(rest) => Some((value as u32, rest)),
        None => None,
    }
}

/// A name with the line feed behind it.
fn name_in(bytes: &[u8]) -> Option<&str>
    ensures { MatchOption result ((name : List ℕ) → IsNameIn bytes.now name → ⊥) (λ name. IsNameIn bytes.now name.now) }
{
    match bytes {
        [name @ .., b'\n'] => text_of(name),
        _ => None,
    }
}

/// The text that bytes are, if they are one and there are any.
fn text_of(bytes: &[u8]) -> Option<&str>
    ensures { MatchOption result ((0 < length bytes.now) × IsUtf8 bytes.now → ⊥)
        (λ text. (text.now ≡ bytes.now) × (0 < length bytes.now) × IsUtf8 bytes.now) }
{
    if bytes.len() == 0 {
        return None;
    }
    match str::from_utf8(bytes) {
        Ok(text) => Some(text),
        Err(_) => None,
    }
}

/// The budget and the name of a job line, and nothing where the line isn't one.
pub(crate) fn job_in(line: &[u8]) -> Option<(u32, &str)>
    ensures { MatchOption result ((job : BatchLine) → IsJobLine line.now job → ⊥)
        (λ p. IsJobLine line.now (record { budget = p.0; file = p.1.now })) }
{
    let Some(rest) = behind_job(line) else {
        return None;
    };
    let Some((budget, rest)) = budget_in(rest) else {
        return None;
    };
    let Some(name) = name_in(rest) else {
        return None;
    };
    Some((budget, name))
}
