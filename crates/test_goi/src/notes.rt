//! Runs with their progress whose error output takes no more.

use crate::devices::{Devices, SOUND, told};
use std::alloc::{AllocError, Global};
use std::sync::Wait;
use std::test::Fail;
use std::thread::Threads;

/// Whether an error output with too little room for the notes ends the call with 4 behind the whole report.
fn notes_fail<R: Threads + Wait + Sync>(
    rt: &R,
    alloc: Global,
    notes: u64,
) -> Result<bool, AllocError> {
    let devices = Devices { notes, ..SOUND };
    let words = "goi run p --progress --tally";
    let seen = told(rt, alloc, words, b"(fun x:nat. x + x) 3", devices)?;
    Ok(
        match seen.strip_prefix(b"4 value 6;moves 30;worker 0 30;finisher 0;") {
            Some(told) => told.len() as u64 == notes && told.starts_with(b"prog"),
            None => false,
        },
    )
}

#[test]
fn notes_that_fail(rt: HostRuntime) -> Result<(), Fail> {
    for room in [4u64, 11, 100, 150] {
        assert!(rt; notes_fail(&rt, rt.alloc(), room)?);
    }
    Ok(())
}
