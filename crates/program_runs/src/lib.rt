//! Programs inside other programs: from the text of a program to the value of its run, in one call.
//!
//! `run_text` reads a text, checks its types, builds its net and has it run by a `Crew`, which is one worker alone or several; a `Calling`
//! says whether the program runs by name or by value. What comes back is the answer with the log of the moves, or the first fault of the
//! text. The contracts speak of the text alone: `RunsText` says that the answer is what the program means and that there are as many
//! moves as its net is long, and `law_one_program` that a text is one program or has one first fault. `net_for` stops at the net, for
//! whoever makes the moves himself, and says what they are worth; `law_tells` says it of nets that were built in steps.
#![tactic(auto)]

mod calling;
mod crew;
mod fault;
mod laws;
mod net;
mod no_run;
mod running;

pub use calling::{Calling, calling_of};
pub use crew::{Alone, Crew, Several};
pub use fault::ProgramFault;
pub use laws::{law_example_callings, law_example_meanings, law_one_program, law_tells};
pub use net::net_for;
pub use no_run::NoRun;
pub use running::run_text;
