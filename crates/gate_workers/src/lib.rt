//! Workers that share a bench behind one lock.
//!
//! A `Bench` hands out pieces of work and takes in what was made of them; what its calls do is said by four relations of its own.
//! `drive` runs so many workers, each in a loop: hand in and ask for the next piece under the lock, pass the gate and work without it.
//! A worker is a value that can't be let go, so that it hands in what it made, works each piece that it is given, and leaves when it is
//! sent home.
//! The bench that comes back is one of its type, so that whatever the type keeps holds of it in every order in which the workers came.
//! A `Gate` stands between a worker and its piece, and sees neither. No promise is made that waiting ends.
#![tactic(auto)]

mod bench;
mod desk;
mod gate;
mod hall;
mod turn;
mod worker;
mod workers;

pub use bench::Bench;
pub use gate::{Gate, OpenGate};
pub use turn::Turn;
pub use workers::drive;
