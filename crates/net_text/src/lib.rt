//! Nets as texts: printed, read back, and understood as the nets of programs.
//!
//! `print_net` writes the listing of a net, `name_text` the name of a node in it, and `read_net` reads one again or reports the first
//! line that can't stand in one. `term_of` answers the one closed term of type `nat`, of at most a given height, whose net a net is, and
//! `accept` takes a net file for the program that it lists, or reports its first fault; `accept_net` answers the program's net as well.
//! `specs/NetText.antt` says which bytes are a listing, and `specs/Accepted.antt` what a net file is accepted as; the laws say that bytes
//! have one answer. Each call goes over its input once, within a stack that doesn't grow with its length. Whether a net is sound is asked
//! of `net_check`, and which term it is the net of, of `net_terms`.
#![tactic(auto)]

mod accepting;
mod fault;
mod form;
mod laws;
pub mod limits;
mod node_line;
mod print;
mod read;
mod scan;
mod term;
mod types;
mod wire_line;

pub use accepting::{accept, accept_net};
pub use fault::NetTextFault;
pub use laws::{
    law_listing_limits, law_listing_one_answer, law_standing, law_texts_read, law_type_read,
};
pub use print::{name_text, print_net};
pub use read::read_net;
pub use term::term_of;
