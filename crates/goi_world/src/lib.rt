//! The outside as the program sees it: files that are read, and sinks that are written.
//!
//! `Files` and `Sink` say what any device may be relied on for: a call fails only where the count
//! of faults rose, or on a name that no file has; a read changes no file; a write appends exactly
//! what it counts; and each read and each write can be told from the state that it leaves.
//! `MemoryFiles` and `MemorySink` are devices in memory, of which everything is known, failures in
//! chosen calls among it. `DiskFiles` and `StdSink` are the real ones: they tell the bytes that each read
//! gave, and the pieces that were handed over. That these are a file's, and that a terminal shows them, is trusted. What to do
//! after a failure is left to the caller.
#![tactic(auto)]

mod disk;
mod laws;
mod memory_files;
mod memory_sink;
mod outside;
mod past;
mod std_sink;

pub use disk::DiskFiles;
pub use laws::{law_first_counts, law_lacks_exactly};
pub use memory_files::MemoryFiles;
pub use memory_sink::MemorySink;
pub use outside::{Failed, Files, Sink};
pub use std_sink::StdSink;
