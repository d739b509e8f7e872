//! What holds of the call-by-name meaning of programs: which exchanges inside a program keep it, and programs that always have a value.
//! Laws alone, no code.
//!
//! The equations of `specs/Equations.antt` hold in every context, also below binders, in both directions; so an optimiser of programs may
//! use them (`law_equations`, and for programs with their nets `law_programs`). A program in which no `fix` stands has a value, and so its
//! net has a length (`law_no_fix`).
#![tactic(auto)]

mod laws;

pub use laws::{law_closed, law_equations, law_example_equations, law_no_fix, law_programs};
