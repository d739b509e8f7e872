//! What is to be done with the text of a file.

ghost use Rattle.std.specs.Prelude.{◌≡◌};
ghost use Rattle.goi_jobs.specs.Tasks.{progress_of};

use crate::shown::Shown;
use crate::window::Window;
use program_runs::Calling;

/// What is to be done with the text of a program, or with the listing of a net.
#[derive(Clone, Copy)]
pub enum Task {
    /// Run the program within so many moves, and tell what is asked for of its run.
    Run {
        /// The most moves; from 1 to `pcf_values::limits::BUDGET`.
        budget: u32,
        /// By name or by value.
        calling: Calling,
        /// What is told of the run.
        shown: Shown,
    },
    /// Tell the program's type, and with `term` the program itself.
    Check {
        /// Whether the program itself is told.
        term: bool,
    },
    /// Tell the listing of the program's net.
    ShowNet,
    /// Run the program whose net the text lists.
    RunNet {
        /// The most moves; from 1 to `pcf_values::limits::BUDGET`.
        budget: u32,
        /// What is told of the run.
        shown: Shown,
    },
    /// Run the program as `Run` does with the same numbers, and tell this part of the run's trace.
    Trace {
        /// The most moves; from 1 to `pcf_values::limits::BUDGET`.
        budget: u32,
        /// By name or by value.
        calling: Calling,
        /// The part of the trace that is told.
        window: Window,
    },
    /// Run the program in rounds, in which all live tokens move once, and tell how many moves and rounds that takes.
    Span {
        /// The most moves; from 1 to `pcf_values::limits::BUDGET`.
        budget: u32,
        /// By name or by value.
        calling: Calling,
        /// Whether each round is told.
        profile: bool,
        /// Whether the schedule of the rounds is told.
        schedule: bool,
    },
    /// Tell the program's reduction by name, with this part of its terms.
    Steps {
        /// The most steps; from 1 to `pcf_values::limits::BUDGET`.
        budget: u32,
        /// The steps whose terms are told: the first of them, counted from 0, and how many at the most.
        window: Window,
    },
}

/// Whether a task tells the progress of its run.
pub fn progress_of(task: Task) -> bool
    ensures { result ≡ progress_of task }
{
    match task {
        Task::Run { shown, .. } | Task::RunNet { shown, .. } => shown.progress,
        _ => false,
    }
}
