//! The limit of the terms that are read from nets, inclusive.

/// The most height of a term that is read back from a net.
pub const TERM_HEIGHT: u32 = 2_600;
