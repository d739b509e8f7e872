//! Faults of programs, of net files, of schedules and of lists.

use batch_lists::BatchFault;
use net_text::NetTextFault;
use program_runs::ProgramFault;
use replay_check::ReplayFault;
use schedule_log::ScheduleFault;

/// Why a program, a net file, a schedule or a list of programs is refused.
#[derive(Clone, Copy)]
pub enum Fault {
    /// The program's text has a fault.
    Program(ProgramFault),
    /// The file isn't the listing of a program's net.
    NetText(NetTextFault),
    /// The schedule's text isn't in the grammar, or passes a limit.
    Schedule(ScheduleFault),
    /// The program's net can't run the schedule.
    Moves(ReplayFault),
    /// The file isn't a list of programs.
    Batch(BatchFault),
}
