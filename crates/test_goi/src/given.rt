//! Bytes for the tests of devices, and what a read gave of them.

use goi_world::{Failed, Files};
use std::alloc::{AllocError, Global};

/// So many bytes, which differ from those that stand a power of two before them.
pub(crate) fn marked(alloc: Global, count: u32) -> Result<Vec<u8>, AllocError> {
    let mut bytes = Vec::new(alloc);
    for i in 0..count {
        bytes.push((i % 251) as u8)?;
    }
    Ok(bytes)
}

/// Whether the first bytes that a read gives are these, or it fails where none are wanted.
pub(crate) fn gives<F: Files>(
    files: &mut F,
    name: &str,
    at: u64,
    buffer: &mut [u8],
    want: Option<&[u8]>,
) -> bool {
    match files.read(name, at, buffer) {
        Ok(count) => buffer.get(..count) == want,
        Err(Failed) => want.is_none(),
    }
}
