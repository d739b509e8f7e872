//! The tasks for which the numbers of calls ask.

ghost use Rattle.std.specs.Prelude.{◌≡◌, false};
ghost use Rattle.goi_jobs.specs.Tasks.{nothing_shown, shown, IsWithin, progress_of};
ghost use Rattle.goi_tasks.specs.Asked.{listed_task, run_task, span_task, taken_task, trace_task};

use goi_jobs::{Shown, Task, Window};
use program_runs::{Calling, calling_of};

/// The run of a program within a budget of moves.
///
/// The flags are a sum of 1 for call by value and 2 for the schedule.
pub fn run_task(budget: u32, flags: u32) -> Task
    ensures { result ≡ run_task budget flags }
{
    Task::Run {
        budget,
        calling: calling_of(flags % 2 == 1),
        shown: only_schedule(flags / 2 % 2 == 1),
    }
}

/// The run of a listed net within a budget of moves, with the schedule where asked.
pub fn net_task(budget: u32, schedule: bool) -> Task
    ensures { result ≡ listed_task budget schedule }
{
    Task::RunNet {
        budget,
        shown: only_schedule(schedule),
    }
}

/// The run of a program within a budget of moves with this part of its trace.
///
/// The flags are 0, or 1 for call by value.
pub fn trace_task(budget: u32, flags: u32, window: Window) -> Task
    ensures { result ≡ trace_task budget flags window }
{
    Task::Trace {
        budget,
        calling: calling_of(flags == 1),
        window,
    }
}

/// The run of a program in rounds within a budget of moves.
///
/// The flags are a sum of 1 for call by value, 2 for the schedule and 4 for a line for each round.
pub fn span_task(budget: u32, flags: u32) -> Task
    ensures { result ≡ span_task budget flags }
{
    Task::Span {
        budget,
        calling: calling_of(flags % 2 == 1),
        profile: flags / 4 == 1,
        schedule: flags / 2 % 2 == 1,
    }
}

/// The task whose faults are looked for, where a text is taken for a program of any type at 0, for one of type `nat` at 1, for one that
/// runs by value at 2, and else for the listing of a program's net.
pub fn task_taken(taken: u32) -> Task
    ensures value { result ≡ taken_task taken }
    ensures within { IsWithin result }
    ensures quiet { progress_of result ≡ false }
{
    match taken {
        0 => Task::Check { term: false },
        1 => Task::Run {
            budget: 1,
            calling: Calling::ByName,
            shown: nothing_shown(),
        },
        2 => Task::Run {
            budget: 1,
            calling: Calling::ByValue,
            shown: nothing_shown(),
        },
        _ => Task::RunNet {
            budget: 1,
            shown: nothing_shown(),
        },
    }
}

/// Of a run the schedule alone is shown, where it is asked for.
fn only_schedule(schedule: bool) -> Shown
    ensures { result ≡ shown schedule false false }
{
    Shown {
        schedule,
        tally: false,
        progress: false,
    }
}

/// Nothing of a run is shown.
fn nothing_shown() -> Shown
    ensures { result ≡ nothing_shown }
{
    Shown {
        schedule: false,
        tally: false,
        progress: false,
    }
}
