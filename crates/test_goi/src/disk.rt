//! Files of the system.

use crate::given::{gives, marked};
use goi_world::{DiskFiles, Failed, Files};
use std::test::Fail;
use std::{fs, rt};

#[test]
fn reads_files_of_the_system(rt: HostRuntime) -> Result<(), Fail> {
    fs::write(&rt, "letters", "hello")?;
    fs::write(&rt, "digits", "12345")?;
    let mut files = DiskFiles::new(&rt);
    let rows: [(&str, u64, Option<&[u8]>); 9] = [
        ("letters", 0, Some(b"hel")),
        ("letters", 3, Some(b"lo")),
        ("digits", 3, Some(b"45")),
        ("letters", 5, Some(b"")),
        ("digits", 0, Some(b"123")),
        ("no such letters", 0, None),
        ("letters", 2, Some(b"llo")),
        ("digits", 2, Some(b"345")),
        ("letters", 1, Some(b"ell")),
    ];
    for (name, at, want) in rows {
        let mut buffer = [0u8; 3];
        assert!(rt; gives(&mut files, name, at, &mut buffer, want));
    }
    fs::remove_file(&rt, "letters")?;
    fs::remove_file(&rt, "digits")?;
    Ok(())
}

/// Whether a read of a file at an offset gives bytes that stand there, and some where there are some.
fn reads_there<R: rt::Files + AllocGlobal>(
    files: &mut DiskFiles<'_, R>,
    name: &str,
    bytes: &[u8],
    at: usize,
    buffer: &mut [u8],
) -> bool {
    match files.read(name, at as u64, buffer) {
        Ok(count) => buffer.get(..count) == bytes.get(at..at.saturating_add(count))
            && (count > 0) == (at < bytes.len()),
        Err(Failed) => false,
    }
}

/// Whether reads at an offset give what stands there, with more and less room.
fn reads_at<R: rt::Files + AllocGlobal>(
    files: &mut DiskFiles<'_, R>,
    bytes: &[u8],
    at: usize,
    buffer: &mut [u8],
) -> bool {
    for room in [1usize, 100, 65_536, 200_001] {
        let most = room.min(buffer.len());
        if !reads_there(files, "large", bytes, at, &mut buffer[..most]) {
            return false;
        }
    }
    true
}

#[test]
fn reads_at_every_place(rt: HostRuntime) -> Result<(), Fail> {
    let bytes = marked(rt.alloc(), 200_000)?;
    fs::write(&rt, "large", &bytes)?;
    let mut files = DiskFiles::new(&rt);
    let mut buffer = marked(rt.alloc(), 200_001)?;
    for at in [
        0usize, 8, 9, 65_535, 65_536, 65_537, 131_071, 131_072, 131_073, 199_999, 200_000,
    ] {
        assert!(rt; reads_at(&mut files, &bytes, at, &mut buffer));
    }
    fs::remove_file(&rt, "large")?;
    Ok(())
}

/// Whether, behind a read from the beginning with so much room, reads at each place at which a piece may have ended give what stands there.
fn keeps_its_place<R: rt::Files + AllocGlobal>(
    files: &mut DiskFiles<'_, R>,
    bytes: &[u8],
    room: usize,
    buffer: &mut [u8],
) -> bool {
    let most = room.min(buffer.len());
    for at in [
        1usize, 65_535, 65_536, 65_537, 131_070, 131_072, 200_000, 262_144,
    ] {
        if !reads_there(files, "pieces", bytes, 0, &mut buffer[..most])
            || !reads_there(files, "pieces", bytes, at, &mut buffer[..most])
        {
            return false;
        }
    }
    true
}

#[test]
fn reads_on_behind_large_pieces(rt: HostRuntime) -> Result<(), Fail> {
    let bytes = marked(rt.alloc(), 300_000)?;
    fs::write(&rt, "pieces", &bytes)?;
    let mut files = DiskFiles::new(&rt);
    let mut buffer = marked(rt.alloc(), 200_000)?;
    for room in [65_535usize, 65_536, 65_537, 131_072, 200_000] {
        assert!(rt; keeps_its_place(&mut files, &bytes, room, &mut buffer));
    }
    fs::remove_file(&rt, "pieces")?;
    Ok(())
}

#[test]
fn reads_behind_millions_of_bytes(rt: HostRuntime) -> Result<(), Fail> {
    let bytes = marked(rt.alloc(), 3_000_000)?;
    fs::write(&rt, "longer", &bytes)?;
    let mut files = DiskFiles::new(&rt);
    let mut buffer = marked(rt.alloc(), 100)?;
    for at in [
        1_999_950usize,
        2_000_000,
        2_000_001,
        2_097_152,
        2_999_999,
        3_000_000,
    ] {
        assert!(rt; reads_there(&mut files, "longer", &bytes, at, &mut buffer));
    }
    fs::remove_file(&rt, "longer")?;
    Ok(())
}
