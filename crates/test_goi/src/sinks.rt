//! Sinks over writers of std.

use crate::given::marked;
use goi_world::{Failed, Sink, StdSink};
use std::alloc::{AllocError, Global};
use std::io;
use std::io::Write;
use std::test::Fail;

/// Whether a sink takes a piece, in however many writes.
fn takes<S: Sink>(sink: &mut S, piece: &[u8]) -> bool {
    let mut rest = piece;
    for _ in 0..u64::MAX {
        if rest.is_empty() {
            return true;
        }
        let Ok(count) = sink.write(rest) else {
            return false;
        };
        rest = rest.split_at(count).1;
    }
    false
}

/// Whether a sink over bytes in memory is given a long piece byte for byte.
fn takes_whole(alloc: Global, length: u32) -> Result<bool, AllocError> {
    let piece = marked(alloc, length)?;
    let mut bytes = marked(alloc, length)?;
    bytes.fill(b'.');
    let taken = takes(&mut StdSink::over(bytes.as_mut_slice()), &piece);
    Ok(taken && bytes == piece)
}

#[test]
fn writes_long_pieces(rt: HostRuntime) -> Result<(), Fail> {
    for length in [65u32, 65_536, 65_537, 200_000] {
        assert!(rt; takes_whole(rt.alloc(), length)?);
    }
    Ok(())
}

#[test]
fn writes_until_nothing_is_taken(rt: HostRuntime) {
    let mut bytes = [b'.'; 8];
    let mut sink = StdSink::over(bytes.as_mut_slice());
    for (piece, want) in [
        ("value", Ok(5)),
        (" 6789", Ok(3)),
        ("", Ok(0)),
        ("9", Err(Failed)),
        ("", Ok(0)),
    ] {
        let taken = sink.write(piece.as_bytes());
        assert!(rt; taken == want);
    }
    assert!(rt; bytes.as_slice() == b"value 67".as_slice());
}

/// A writer that fails at its first write and takes all that comes later, as a pipe does that is full once.
#[derive(Drop)]
struct FullOnce {
    calls: u32,
}

impl Write for FullOnce {
    fn write(&mut self, piece: &[u8]) -> io::Result<usize> {
        if self.calls == 0 {
            self.calls = 1;
            return Err(io::Error::from(io::ErrorKind::WouldBlock));
        }
        Ok(piece.len())
    }

    fn flush(&mut self) -> io::Result<()> {
        Ok(())
    }
}

#[test]
fn a_failed_write_is_not_tried_again(rt: HostRuntime) {
    let mut sink = StdSink::over(FullOnce { calls: 0 });
    assert!(rt; sink.write(b"value 55".as_slice()) == Err(Failed));
    assert!(rt; sink.write(b"value 55".as_slice()) == Ok(8));
}
