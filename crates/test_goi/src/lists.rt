//! Lists of programs as whole calls: what failing devices leave.

use crate::devices::{Devices, SOUND, answered, push_bytes, texts};
use crate::fed::feed_lines;
use goi_world::MemoryFiles;
use pcf_values::Ident;
use std::alloc::{AllocError, Global};
use std::sync::Wait;
use std::test::Fail;
use std::thread::Threads;

/// The list of three programs of which one has a value, one has none within its budget, and one is empty; and what is told of it.
const THREE: &str = "batch 1;job 30 p9;job 5 p5;job 10 p1;end;";

const TOLD: &str = "1 job 0;value 6;moves 30;job 1;no value;moves 5;job 2;refused: Unexpected(0);";

/// One more file, with a line feed for each `;` of its text.
pub(crate) fn push_file(
    alloc: Global,
    held: &mut Vec<(Ident, Vec<u8>)>,
    name: &str,
    text: &str,
) -> Result<(), AllocError> {
    let bytes = feed_lines(alloc, text)?;
    push_bytes(alloc, held, name, &bytes)
}

/// Puts the list `l` there, with a line feed for each `;`, and its programs.
fn push_listed(
    alloc: Global,
    held: &mut Vec<(Ident, Vec<u8>)>,
    list: &str,
) -> Result<(), AllocError> {
    push_file(alloc, held, "l", list)?;
    push_file(alloc, held, "p9", "(fun x:nat. x + x) 3")?;
    push_file(alloc, held, "p5", "1 + 2")?;
    push_file(alloc, held, "p1", "")
}

/// The files of a call.
fn listed(alloc: Global, list: &str, devices: Devices<'_>) -> Result<MemoryFiles, AllocError> {
    let mut held = Vec::new(alloc);
    push_listed(alloc, &mut held, list)?;
    Ok(MemoryFiles::new(held, devices.most.max(1), devices.reads.to_vec(alloc)?))
}

/// Whether a call with these words and this list leaves this.
fn leaves<R: Threads + Wait + Sync>(
    rt: &R,
    alloc: Global,
    words: &str,
    list: &str,
    devices: Devices<'_>,
    wanted: &str,
) -> Result<bool, AllocError> {
    let words = texts(alloc, words)?;
    let mut files = listed(alloc, list, devices)?;
    Ok(answered(rt, alloc, &words, &mut files, devices)?.as_slice() == wanted.as_bytes())
}

/// A list for each status that a report comes with: 1, 5 and 0.
const REPORTED: &str = "
batch 1;job 30 p9;job 5 p5;job 10 p1;end;
batch 1;job 30 p9;job 5 p5;end;
batch 1;job 30 p9;end;
";

/// Lists that are refused, and one that names a file that isn't there.
const REFUSED: &str = "
batch 1;job 0 p9;end;
batch 1;job 30 p9;
job 30 p9;end;
batch 1;job 30 p9;job 5 lacked;job 10 p1;end;
";

/// What a list leaves where calls of a device fail.
fn failing<R: Threads + Wait + Sync>(
    rt: &R,
    alloc: Global,
    list: &str,
    reads: &[u64],
    outs: &[u64],
    errs: &[u64],
    wanted: &str,
) -> Result<bool, AllocError> {
    let devices = Devices {
        reads,
        outs,
        errs,
        ..SOUND
    };
    leaves(rt, alloc, "goi batch l", list, devices, wanted)
}

/// Whether the list's report is cut as far as an output takes it that fails at once, or behind ten bytes.
fn is_cut<R: Threads + Wait + Sync>(rt: &R, alloc: Global, list: &str) -> Result<bool, AllocError> {
    let devices = Devices {
        most: 10,
        outs: &[2],
        ..SOUND
    };
    Ok(
        failing(rt, alloc, list, &[], &[1], &[], "4 write failed;")?
            && failing(rt, alloc, list, &[], &[1], &[1], "4 ")?
            && leaves(
                rt,
                alloc,
                "goi batch l",
                list,
                devices,
                "4 job 0;valuwrite failed;",
            )?,
    )
}

#[test]
fn outputs_that_fail(rt: HostRuntime) -> Result<(), Fail> {
    for list in REPORTED.split('\n') {
        assert!(rt; list.is_empty() || is_cut(&rt, rt.alloc(), list)?);
    }
    for list in REFUSED.split('\n') {
        assert!(rt; list.is_empty() || failing(&rt, rt.alloc(), list, &[], &[], &[1], "4 ")?);
    }
    Ok(())
}

#[test]
fn reads_that_fail(rt: HostRuntime) -> Result<(), Fail> {
    // Each file takes two reads, but the empty one takes one.
    for read in 1u64..8 {
        assert!(rt; failing(&rt, rt.alloc(), THREE, &[read], &[], &[], "3 read failed;")?);
        assert!(rt; failing(&rt, rt.alloc(), THREE, &[read], &[], &[1], "4 ")?);
    }
    assert!(rt; failing(&rt, rt.alloc(), THREE, &[8], &[], &[], TOLD)?);
    Ok(())
}
