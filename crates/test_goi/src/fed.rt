//! Lines of texts, which end with `;` in the tables of these tests.

use std::alloc::{AllocError, Global};

/// A text with a line feed for each `;`.
pub(crate) fn feed_lines(alloc: Global, text: &str) -> Result<Vec<u8>, AllocError> {
    let mut lines = Vec::new(alloc);
    for byte in text.as_bytes() {
        lines.push(if *byte == b';' { b'\n' } else { *byte })?;
    }
    Ok(lines)
}
