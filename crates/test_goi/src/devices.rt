//! Whole calls over files and sinks in memory: what every failing device leaves. Calls whose devices are sound are tried from outside, by
//! `.ci/calls`.

use gate_workers::{Gate, OpenGate};
use goi_engine::goi;
use goi_world::{MemoryFiles, MemorySink};
use pcf_values::Ident;
use std::alloc::{AllocError, Global};
use std::sync::Wait;
use std::test::Fail;
use std::thread::Threads;
use testing_gates::cut;

/// The devices of a call: how many bytes a call of each takes at most, how much the output holds, and which calls fail.
#[derive(Clone, Copy)]
pub(crate) struct Devices<'a> {
    pub(crate) most: u64,
    pub(crate) room: u64,
    /// How much the error output holds.
    pub(crate) notes: u64,
    pub(crate) reads: &'a [u64],
    pub(crate) outs: &'a [u64],
    pub(crate) errs: &'a [u64],
}

pub(crate) const SOUND: Devices<'static> = Devices {
    most: 1_000_000,
    room: 2_000_000,
    notes: 1000,
    reads: &[],
    outs: &[],
    errs: &[],
};

/// One more file.
pub(crate) fn push_bytes(
    alloc: Global,
    held: &mut Vec<(Ident, Vec<u8>)>,
    name: &str,
    bytes: &[u8],
) -> Result<(), AllocError> {
    let name = Ident::from_text(alloc, name)?;
    held.push((name, bytes.to_vec(alloc)?))?;
    Ok(())
}

/// The files of a call: `p` with this text.
fn files(alloc: Global, text: &[u8], devices: Devices<'_>) -> Result<MemoryFiles, AllocError> {
    let mut held = Vec::new(alloc);
    push_bytes(alloc, &mut held, "p", text)?;
    Ok(MemoryFiles::new(held, devices.most.max(1), devices.reads.to_vec(alloc)?))
}

/// A sink of so much room that takes at most so many bytes a call, and at least one; these calls of it fail.
fn sink(alloc: Global, room: u64, most: u64, fails: &[u64]) -> Result<MemorySink, AllocError> {
    MemorySink::new(alloc, room, most.max(1), fails.to_vec(alloc)?)
}

/// The words of a text, parted by blanks.
pub(crate) fn texts(alloc: Global, words: &str) -> Result<Vec<String>, AllocError> {
    let mut given = Vec::new(alloc);
    for word in words.split(' ') {
        given.push(String::from_str(alloc, word)?)?;
    }
    Ok(given)
}

/// A text with `;` for each line feed.
fn push_lines(to: &mut Vec<u8>, text: &[u8]) -> Result<(), AllocError> {
    for byte in text {
        to.push(if *byte == b'\n' { b';' } else { *byte })?;
    }
    Ok(())
}

/// A status and what was written to both sinks, with `;` for each line feed.
fn seen(
    alloc: Global,
    status: u8,
    out: &MemorySink,
    err: &MemorySink,
) -> Result<Vec<u8>, AllocError> {
    let mut seen = vec![in alloc; b'0'.saturating_add(status), b' ']?;
    push_lines(&mut seen, out.written())?;
    push_lines(&mut seen, err.written())?;
    Ok(seen)
}

/// What a call with these words leaves, at a gate.
pub(crate) fn answered_at<R: Threads + Wait + Sync, G: Gate>(
    rt: &R,
    alloc: Global,
    words: &Vec<String>,
    files: &mut MemoryFiles,
    devices: Devices<'_>,
    gate: &G,
) -> Result<Vec<u8>, AllocError> {
    let mut out = sink(alloc, devices.room, devices.most, devices.outs)?;
    let mut err = sink(alloc, devices.notes, devices.most, devices.errs)?;
    let status = goi(rt, alloc, words, files, &mut out, &mut err, gate);
    seen(alloc, status, &out, &err)
}

/// What a call with these words leaves, at an open gate.
pub(crate) fn answered<R: Threads + Wait + Sync>(
    rt: &R,
    alloc: Global,
    words: &Vec<String>,
    files: &mut MemoryFiles,
    devices: Devices<'_>,
) -> Result<Vec<u8>, AllocError> {
    answered_at(rt, alloc, words, files, devices, &OpenGate)
}

/// What a call with these words leaves: its status, and what was written to the output and to the error output, with `;` for each
/// line feed.
pub(crate) fn told<R: Threads + Wait + Sync>(
    rt: &R,
    alloc: Global,
    words: &str,
    text: &[u8],
    devices: Devices<'_>,
) -> Result<Vec<u8>, AllocError> {
    let words = texts(alloc, words)?;
    let mut files = files(alloc, text, devices)?;
    answered(rt, alloc, &words, &mut files, devices)
}

/// Whether a call with these words leaves this.
fn leaves<R: Threads + Wait + Sync>(
    rt: &R,
    alloc: Global,
    words: &str,
    text: &[u8],
    devices: Devices<'_>,
    wanted: &str,
) -> Result<bool, AllocError> {
    Ok(told(rt, alloc, words, text, devices)?.as_slice() == wanted.as_bytes())
}

/// Whether this is left where the call to the files of this number fails. They give a byte a call.
fn failed_read_leaves<R: Threads + Wait + Sync>(
    rt: &R,
    alloc: Global,
    failing: u64,
    wanted: &str,
) -> Result<bool, AllocError> {
    let devices = Devices {
        most: 1,
        reads: &[failing],
        ..SOUND
    };
    leaves(rt, alloc, "goi run p", b"succ 4", devices, wanted)
}

#[test]
fn reads_that_fail(rt: HostRuntime) -> Result<(), Fail> {
    // `succ 4` is read a byte a call, so that the seventh call finds its end.
    for failing in 1u64..9 {
        let wanted = if failing == 8 {
            "0 value 5;moves 4;"
        } else {
            "3 read failed;"
        };
        assert!(rt; failed_read_leaves(&rt, rt.alloc(), failing, wanted)?);
    }
    Ok(())
}

/// Whether a row is so: a text, what a call on it leaves, how much the output holds, and which call to it fails and which to the error
/// output, 0 for none. A sink takes 8 bytes in a call.
fn failed_write_leaves<R: Threads + Wait + Sync>(
    rt: &R,
    alloc: Global,
    row: &str,
) -> Result<bool, AllocError> {
    let (text, rest) = cut(row, '|');
    let (wanted, rest) = cut(rest, '|');
    let (room, rest) = cut(rest, '|');
    let (out, err) = cut(rest, '|');
    let devices = Devices {
        most: 8,
        room: room.parse().unwrap_or(0),
        reads: &[],
        outs: &[out.parse().unwrap_or(0)],
        errs: &[err.parse().unwrap_or(0)],
        ..SOUND
    };
    leaves(rt, alloc, "goi run p", text.as_bytes(), devices, wanted)
}

#[test]
fn writes_that_fail(rt: HostRuntime) -> Result<(), Fail> {
    // The report has 16 bytes.
    let table = "succ 4|4 write failed;|4000|1|0
succ 4|4 value 5;write failed;|4000|2|0
succ 4|0 value 5;moves 4;|4000|3|0
succ 4|4 value 5;moves 4write failed;|15|0|0
succ 4|0 value 5;moves 4;|16|0|0
succ 4|4 |4000|1|1
|4 |4000|0|1
|4 refused:|4000|0|2";
    for row in table.split('\n') {
        assert!(rt; failed_write_leaves(&rt, rt.alloc(), row)?);
    }
    Ok(())
}
