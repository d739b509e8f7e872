//! The whole text of a reduction.

ghost use Rattle.std.specs.Prelude.{◌≡◌, ◌++◌, ℕ, List, IfOk, OnOk, codes, decimal};
ghost use Rattle.pcf_values.specs.Views.{named_of};
ghost use Rattle.term_steps.specs.Names.{named_spelled};
ghost use Rattle.step_text.specs.Courses.{course, course_value, value_text, why_text, end_text, course_text};
ghost use Rattle.step_text.specs.Texts.{steps_text};

use crate::course::follow;
use crate::line::{push_spaced, push_term_line};
use crate::size::is_within;
use itoa::Buffer;
use pcf_values::{Named, Val};
use std::alloc::{AllocError, Global};
use term_steps::spelled;

/// Appends a number and a line feed.
fn push_number_line(text: &mut Vec<u8>, word: &[u8], n: u64) -> Result<(), AllocError>
    ensures { OnOk result (text.new.items ≡ text.old.items ++ (word.now ++ (decimal n ++ codes "\n"))) }
{
    let mut buffer = Buffer::new();
    text.extend_from_slice(word)?;
    text.extend_from_slice(buffer.format(n).as_bytes())?;
    text.extend_from_slice(b"\n")
}

/// Appends the line of the value.
fn push_value(text: &mut Vec<u8>, value: Option<Val>) -> Result<(), AllocError>
    ensures { OnOk result (text.new.items ≡ text.old.items ++ value_text value) }
{
    match value {
        Some(Val::Number(n)) => push_number_line(text, b"value ", n),
        Some(Val::Overflow) => text.extend_from_slice(b"value overflow\n"),
        None => text.extend_from_slice(b"no value\n"),
    }
}

/// What stopped a reduction at a term that spells no value.
fn why(last: &Named, room: u64) -> &'static [u8]
    ensures { result.now ≡ why_text room (named_of last.now) }
{
    if is_within(last, room) {
        b"budget"
    } else {
        b"nodes"
    }
}

/// Appends the last line.
fn push_end(
    alloc: Global,
    text: &mut Vec<u8>,
    steps: u64,
    last: &Named,
    value: Option<Val>,
    room: u64,
) -> Result<(), AllocError>
    ensures { (lines : List ℕ) → OnOk result (text.new.items ≡ text.old.items ++
        end_text room (record { steps = steps; last = named_of last.now; lines = lines }) value) }
{
    match value {
        Some(_) => {
            text.extend_from_slice(b"end ")?;
            push_spaced(text, steps)?;
            push_term_line(alloc, text, last)
        }
        None => {
            text.extend_from_slice(b"stop ")?;
            push_spaced(text, steps)?;
            text.extend_from_slice(why(last, room))?;
            text.extend_from_slice(b"\n")
        }
    }
}

/// Appends the text of a reduction that was followed.
fn push_course(
    alloc: Global,
    text: &mut Vec<u8>,
    steps: u64,
    last: &Named,
    lines: &[u8],
    room: u64,
) -> Result<Option<Val>, AllocError>
    ensures text { IfOk result (λ v. text.new.items ≡ text.old.items ++
        course_text room (record { steps = steps; last = named_of last.now; lines = lines.now })) }
    ensures value { IfOk result (λ v. v ≡ named_spelled (named_of last.now)) }
{
    let value = spelled(last);
    push_value(text, value)?;
    push_number_line(text, b"steps ", steps)?;
    text.extend_from_slice(lines)?;
    push_end(alloc, text, steps, last, value, room)?;
    Ok(value)
}

/// Makes the steps of a term and appends the text of its reduction. Answers the value.
fn push_from(
    alloc: Global,
    text: &mut Vec<u8>,
    now: &mut Named,
    from: u64,
    most: u64,
    room: u64,
    budget: u64,
) -> Result<Option<Val>, AllocError>
    ensures text { IfOk result (λ v. text.new.items ≡ text.old.items ++ steps_text from most room budget (named_of now.old)) }
    ensures value { IfOk result (λ v. v ≡ course_value (course from most room budget (named_of now.old))) }
{
    let mut lines = Vec::new(alloc);
    let steps = follow(alloc, &mut lines, now, from, most, room, budget)?;
    push_course(alloc, text, steps, now, &lines, room)
}

/// Appends the text of a term's reduction: its value, the number of its steps, the lines of at most `most` steps from step `from` on,
/// and what it ended at. At most `budget` steps are made, and none of a term that has more than `room` nodes. Answers the value.
///
/// A step takes the time and the memory of a copy of its term, and a term is at most as large as the one before, squared.
///
/// # Errors
///
/// It runs out of memory; what is appended by then says nothing.
pub fn push_steps(
    alloc: Global,
    text: &mut Vec<u8>,
    term: &Named,
    from: u64,
    most: u64,
    room: u64,
    budget: u64,
) -> Result<Option<Val>, AllocError>
    ensures text { IfOk result (λ v. text.new.items ≡ text.old.items ++ steps_text from most room budget (named_of term.now)) }
    ensures value { IfOk result (λ v. v ≡ course_value (course from most room budget (named_of term.now))) }
{
    let mut last = term.copy(alloc)?;
    let value = push_from(alloc, text, &mut last, from, most, room, budget);
    drop(last);
    value
}
