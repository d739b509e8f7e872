//! How much text a task takes.

ghost use Rattle.std.specs.Prelude.{◌≡◌};
ghost use Rattle.goi_tasks.specs.Tasks.{most_bytes};

use goi_jobs::Task;
use net_text::limits::NET_TEXT_BYTES;
use pcf_values::limits::PROGRAM_BYTES;

/// How many bytes the text of a task has at the most.
pub fn most_bytes(task: Task) -> u32
    ensures { result ≡ most_bytes task }
{
    match task {
        Task::RunNet { .. } => NET_TEXT_BYTES as u32,
        _ => PROGRAM_BYTES as u32,
    }
}
