//! What is done with texts: from the bytes of a program, of a net's listing or of a schedule, to what is printed or to the first fault.
//!
//! A `Task` of `goi_jobs` says what is to be done with the text of one file; `report_text` does it, `report_replay` runs a schedule,
//! `report_call` a function at numbers, `report_demo` the generated program, and `report_verilog` what is asked for of a circuit. Whatever
//! a task, a call or the generated program runs is run by a `Crew` that is handed in. Each answers the whole output as a value, or the
//! text's first fault, which `refuse` turns into its line. Files and sinks are left to the crate above. `giving`, `answer`, `rows` and
//! `asked` are the parts of the calls for other languages of which wrong bodies are tried; `goi_c` has the exports.
#![tactic(auto)]

mod agreement;
mod answer;
mod asked;
mod bench;
mod calling;
mod circuit;
mod circuit_run;
mod demo;
mod fault;
mod giving;
mod judge;
mod needs;
mod net_file;
mod notes;
mod program;
mod refusal;
mod replaying;
mod report;
mod rows;
mod running;
mod settled;
mod span;
mod steps;
mod stop;
mod task;
mod telling;
mod verilog;
mod watched;

pub use agreement::law_run_and_steps;
pub use answer::{Answer, answer_of, no_answer};
pub use asked::{net_task, run_task, span_task, task_taken, trace_task};
pub use calling::report_call;
pub use demo::report_demo;
pub use fault::Fault;
pub use giving::{BAD_CALL, NO_MEMORY, give, give_fault, give_nothing, give_result, give_stop};
pub use judge::report_text;
pub use refusal::{Refusal, refuse};
pub use replaying::{replay_text, report_replay};
pub use report::Report;
pub use rows::{clear, settle};
pub use running::status_of;
pub use settled::{law_one_listing, law_tasks_settled};
pub use stop::Stop;
pub use task::most_bytes;
pub use telling::{ValueAndMoves, tell_text};
pub use verilog::report_verilog;
pub use watched::Watched;
