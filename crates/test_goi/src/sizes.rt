//! No words at all, and words of a megabyte, which are longer than the system hands to a program.

use crate::devices::texts;
use goi_jobs::{Job, Task};
use goi_words::{WordFault, job_of};
use std::alloc::{AllocError, Global};
use std::test::Fail;

/// How many characters a long word has.
const LONG: u32 = 1_048_576;

#[test]
fn no_words(rt: HostRuntime) -> Result<(), Fail> {
    let words: [String; 0] = [];
    assert!(rt; matches!(job_of(rt.alloc(), &words), Err(WordFault::Refused)));
    Ok(())
}

/// A text, and a piece so many times behind it.
fn long_text(alloc: Global, front: &str, piece: &str, count: u32) -> Result<String, AllocError> {
    let mut text = String::from_str(alloc, front)?;
    for _ in 0..count {
        text.push_str(piece)?;
    }
    Ok(text)
}

/// The words of a text, and a long one behind them, with this front and so many of this letter.
fn words_of(
    alloc: Global,
    call: &str,
    front: &str,
    letter: &str,
) -> Result<Vec<String>, AllocError> {
    let mut words = texts(alloc, call)?;
    words.push(long_text(alloc, front, letter, LONG)?)?;
    Ok(words)
}

/// Whether such a call is refused.
fn is_refused(alloc: Global, call: &str, front: &str, letter: &str) -> Result<bool, AllocError> {
    let words = words_of(alloc, call, front, letter)?;
    Ok(matches!(job_of(alloc, &words), Err(WordFault::Refused)))
}

#[test]
fn long_words(rt: HostRuntime) -> Result<(), Fail> {
    assert!(rt; is_refused(rt.alloc(), "goi run", "--", "x")?);
    assert!(rt; is_refused(rt.alloc(), "goi run", "-", "t")?);
    assert!(rt; is_refused(rt.alloc(), "goi demo", "", "9")?);
    Ok(())
}

/// Whether a job is to print the net of the file of this name.
fn shows_net(job: &Job, name: &str) -> bool {
    match job {
        Job::Text {
            file,
            task: Task::ShowNet,
            ..
        } => file.as_str() == name,
        _ => false,
    }
}

/// Whether the job of these words is to print the net of the file of this name.
fn asks_for_net(alloc: Global, words: &[String], name: &str) -> bool {
    match job_of(alloc, words) {
        Ok(job) => shows_net(&job, name),
        Err(_) => false,
    }
}

/// Whether the long name of a file is kept whole.
fn is_kept(alloc: Global) -> Result<bool, AllocError> {
    let words = words_of(alloc, "goi net", "/", "p")?;
    let wanted = long_text(alloc, "/", "p", LONG)?;
    Ok(asks_for_net(alloc, &words, &wanted))
}

#[test]
fn a_long_name(rt: HostRuntime) -> Result<(), Fail> {
    assert!(rt; is_kept(rt.alloc())?);
    Ok(())
}
