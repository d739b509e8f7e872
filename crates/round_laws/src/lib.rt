//! Rounds, in which every live token makes one move: what running all tokens at once comes to, and how fast it can be. Laws alone, no code.
//!
//! The number of moves up to the answer is the same in every order, and says how much work a program is. Here is the other number that a
//! builder of a parallel machine asks for: in how many rounds the answer comes where nothing has to wait for a processor. It is counted
//! along the net without any token (`Span`), as the length is; so many rounds answer and no fewer (`law_span`); and no schedule in which a
//! token moves once in a unit of time has an answer in fewer units (`law_schedules`). What p processors can do is in `law_processors`.
#![tactic(auto)]

mod laws;

pub use laws::{
    law_example_rounds, law_processors, law_round_answers, law_round_programs, law_rounds,
    law_schedules, law_span, law_unit_order,
};
