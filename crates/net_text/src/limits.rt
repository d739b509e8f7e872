//! The limits of net files, each inclusive.

/// The most bytes of a net file.
pub const NET_TEXT_BYTES: u64 = 16_777_216;

/// The most height of a type that a net file names.
pub const TYPE_HEIGHT: u32 = 4_000;
