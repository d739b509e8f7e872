//! The limit of the programs that are translated.

/// The greatest height of a program that is run by value.
pub const BY_VALUE_HEIGHT: u32 = 500;
