//! Values, types and terms of PCF, as data.
//!
//! Everything above speaks of programs in this crate's words: `Val` with its arithmetic, `Operator`, `Side`, `Ident`, `Ty`, `Named` (a
//! term as it is read, with names and places), `Term` (with variables by index) and `Typed`, a closed term that keeps its type.
//! Each operation on values is its definition in `specs/Values.antt`; each tree is seen by contracts through a view of
//! `specs/Views.antt`; the typing relation stands in `specs/Typing.antt`. Reading and checking are left to the crates above.
#![tactic(auto)]

mod ident;
mod laws;
pub mod limits;
mod named;
mod operator;
mod side;
mod term;
mod ty;
mod typed;
mod val;

pub use ident::Ident;
pub use laws::law_program_limits;
pub use named::{Named, Raw};
pub use operator::Operator;
pub use side::Side;
pub use term::Term;
pub use ty::Ty;
pub use typed::Typed;
pub use val::Val;
