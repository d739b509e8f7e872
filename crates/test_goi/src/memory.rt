//! Files and a sink in memory.

use crate::devices::push_bytes;
use crate::given::gives;
use goi_world::{Failed, MemoryFiles, MemorySink, Sink};
use std::alloc::{AllocError, Global};
use std::test::Fail;

/// Two files `a`, of which the first counts, and an empty one. The second and the fifth call fail.
fn held(alloc: Global) -> Result<MemoryFiles, AllocError> {
    let mut list = Vec::new(alloc);
    for (name, bytes) in [("a", "hello"), ("b", ""), ("a", "other")] {
        push_bytes(alloc, &mut list, name, bytes.as_bytes())?;
    }
    let failing = vec![in alloc; 2, 5]?;
    Ok(MemoryFiles::new(list, 3, failing))
}

#[test]
fn reads_in_turn(rt: HostRuntime) -> Result<(), Fail> {
    let mut files = held(rt.alloc())?;
    // The name, the offset, the room for bytes, and what is read.
    let rows: [(&str, u64, usize, Option<&[u8]>); 10] = [
        ("a", 0, 8, Some(b"hel")),
        ("a", 0, 8, None),
        ("a", 3, 8, Some(b"lo")),
        ("c", 0, 8, None),
        ("c", 0, 8, None),
        ("a", 5, 8, Some(b"")),
        ("a", u64::MAX, 8, Some(b"")),
        ("b", 0, 8, Some(b"")),
        ("a", 1, 2, Some(b"el")),
        ("a", 1, 0, Some(b"")),
    ];
    for (name, at, room, want) in rows {
        let mut buffer = [0u8; 8];
        assert!(rt; gives(&mut files, name, at, &mut buffer[..room.min(8)], want));
    }
    Ok(())
}

/// An empty sink with room for ten bytes, which takes four in a write. The third and the eighth call fail.
fn small_sink(alloc: Global) -> Result<MemorySink, AllocError> {
    let failing = vec![in alloc; 3, 8]?;
    MemorySink::new(alloc, 10, 4, failing)
}

#[test]
fn writes_in_turn(rt: HostRuntime) -> Result<(), Fail> {
    let mut sink = small_sink(rt.alloc())?;
    // The piece, and how much of it is taken.
    let rows = [
        ("", Ok(0)),
        ("abcdef", Ok(4)),
        ("x", Err(Failed)),
        ("efg", Ok(3)),
        ("hijklm", Ok(3)),
        ("x", Err(Failed)),
        ("", Ok(0)),
        ("", Err(Failed)),
        ("x", Err(Failed)),
    ];
    for (piece, want) in rows {
        assert!(rt; sink.write(piece.as_bytes()) == want);
    }
    assert!(rt; sink.written() == b"abcdefghij".as_slice());
    Ok(())
}
