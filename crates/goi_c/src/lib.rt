//! The machine for programs that aren't written in Rattle: a few calls on bytes and numbers, for C and whoever speaks to C.
//!
//! A call takes a text and does one task with it, by one worker: no thread is started, no lock is taken, and nothing is kept between
//! calls. What it has to say is put into the caller's buffer, whole or not at all. What each call promises is one definition of
//! `specs/Calls.antt`, over the bytes that the caller hands in and the buffer that it gets back; whether the caller hands in what the
//! types say, no proof can tell. Parts of the calls are in `goi_tasks`: those of which wrong bodies are tried, since a static library is
//! dear to check. `c/goi.h` declares the calls for C.
#![tactic(auto)]

mod checking;
mod finding;
mod kinds;
mod marks;
mod rows;
mod running;
mod spanning;
mod stepping;
mod telling;
mod version;

pub use checking::{goi_check, goi_circuit, goi_net, goi_replay, goi_replay_trace};
pub use finding::{FaultData, goi_find_fault, goi_find_schedule_fault};
pub use goi_tasks::Answer;
pub use kinds::Kind;
pub use marks::Mark;
pub use rows::goi_tell_each;
pub use running::{goi_run, goi_run_net, goi_trace};
pub use spanning::goi_span;
pub use stepping::goi_steps;
pub use telling::goi_tell;
pub use version::{goi_version, goi_version_text};
