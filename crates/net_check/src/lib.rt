//! Whether a net is sound.
//!
//! `check` answers `Ok` exactly where a net is sound by net_build's `specs/Sound.antt`, and otherwise exactly the first fault, by the
//! order of `specs/Faults.antt`. It takes time in the order of the net's size, each type counted with its own. What it is for are nets
//! that no term built; of a built net `net_build::law_built_sound` says the same without a look.
#![tactic(auto)]

mod checking;
mod fault;
mod loose;
mod rows;
mod tally;

pub use checking::{check, law_net_one_fault};
pub use fault::NetFault;
