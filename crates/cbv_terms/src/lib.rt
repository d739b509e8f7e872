//! Call by value, by translation into call by name.
//!
//! `by_value` makes of a program one that means by name what the program means by value, or tells the first fault for which the program
//! has no such translation. The meaning by value stands in `specs/ByValue.antt`, the translation by continuations in
//! `specs/Translation.antt`, the faults in `specs/Faults.antt`; `law_by_value` says that the translation is right, in both directions.
//! Building the net of the translated program, and running it, are left to the crates above.
#![tactic(auto)]

mod binder;
mod fault;
mod forms;
mod known;
mod laws;
mod limit;
mod made;
mod program;
mod refusal;
mod translate;

pub use fault::ByValueFault;
pub use laws::{
    law_by_value, law_by_value_one_value, law_example_faults, law_example_values, law_faults,
    law_translated,
};
pub use limit::BY_VALUE_HEIGHT;
pub use program::by_value;
