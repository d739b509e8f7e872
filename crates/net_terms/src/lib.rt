//! The term that a net is the net of.
//!
//! `term_within` answers the one closed term of type `nat`, of at most a given height, whose net a net is, or that there is none;
//! `specs/OfTerm.antt` says whose net a net is. One walk over the nodes, that of `net_marks`, makes the term that it can be, and the net
//! of that term is built and compared, within a stack that grows with the term's height alone. The laws say that from a term's net that
//! term is read, and that no two terms have one net. Listings of nets, and whether a net is sound, are left to others: of a net that
//! isn't sound the answer is right too, but the time goes with the net's size on a sound one only.
#![tactic(auto)]

mod forms;
mod height;
mod infer;
mod laws;
pub mod limits;
mod readback;
mod rebuild;
mod uses;

pub use laws::{law_example_term, law_limit, law_net_read_back, law_one_term};
pub use readback::term_within;
