//! The lines that several reports have.

ghost use Rattle.std.specs.Prelude.{◌≡◌, ◌++◌, codes, decimal, OnOk};
ghost use Rattle.goi_reports.specs.Lines.{numbered_line, result_lines, value_line};

use itoa::Buffer;
use pcf_values::Val;
use std::alloc::AllocError;

/// Appends the two lines of a run: its answer, and how many moves it made.
///
/// # Errors
///
/// `AllocError` when memory runs out.
pub(crate) fn push_result(
    report: &mut Vec<u8>,
    answer: Option<Val>,
    moves: u32,
) -> Result<(), AllocError>
    ensures { OnOk result (report.new.items ≡ report.old.items ++ result_lines answer moves) }
{
    push_value_line(report, answer)?;
    push_number_line(report, b"moves ", moves.into())
}

/// Appends the line of a run's answer.
///
/// # Errors
///
/// `AllocError` when memory runs out.
pub(crate) fn push_value_line(report: &mut Vec<u8>, answer: Option<Val>) -> Result<(), AllocError>
    ensures { OnOk result (report.new.items ≡ report.old.items ++ value_line answer) }
{
    match answer {
        Some(Val::Number(n)) => push_number_line(report, b"value ", n),
        Some(Val::Overflow) => report.extend_from_slice(b"value overflow\n"),
        None => report.extend_from_slice(b"no value\n"),
    }
}

/// Appends a word, a number and a line feed.
///
/// # Errors
///
/// `AllocError` when memory runs out.
pub(crate) fn push_number_line(report: &mut Vec<u8>, word: &[u8], n: u64) -> Result<(), AllocError>
    ensures { OnOk result (report.new.items ≡ report.old.items ++ numbered_line word.now n) }
{
    let mut buffer = Buffer::new();
    push_line(report, word, buffer.format(n).as_bytes())
}

/// Appends a word, a text and a line feed.
///
/// # Errors
///
/// `AllocError` when memory runs out.
pub(crate) fn push_line(report: &mut Vec<u8>, word: &[u8], text: &[u8]) -> Result<(), AllocError>
    ensures { OnOk result (report.new.items ≡ report.old.items ++ (word.now ++ (text.now ++ codes "\n"))) }
{
    report.extend_from_slice(word)?;
    report.extend_from_slice(text)?;
    report.extend_from_slice(b"\n")
}
