//! Proof nets, and the net of a program.
//!
//! A `Net` is a list of wires and a list of nodes, which never change; `above` and `below` answer the node on a side of a wire in
//! constant time. `build` gives the net of a closed term of type `nat`: exactly the net that `specs/NetOf.antt` defines, whose size
//! `law_net_size` bounds and which `law_built_sound` shows sound. Checking nets of other origin, and walking them, are left to the
//! crates above.
#![tactic(auto)]

mod closing;
mod double;
mod index;
mod joins;
mod laws;
mod lists;
mod net;
mod node;
mod parts;
mod translate;
mod unary;
mod wire;

pub use laws::{law_built_sound, law_example_net, law_net_size};
pub use net::Net;
pub use node::Node;
pub use translate::build;
pub use wire::{Wire, WireKind};
