//! Why a list of tickets is no run of a net.

ghost use Rattle.std.specs.Prelude.{◌≡◌};
ghost use Rattle.replay_check.specs.declared.fault.ReplayFault.TheVariants.{NoMemory};

use std::alloc::AllocError;

/// Why a log is not replayed. Places are counted from 0.
#[derive(Clone, Copy, Debug, PartialEq, Eq)]
pub enum ReplayFault {
    /// Memory was wanting. Nothing is said of the log.
    NoMemory,
    /// At this place this ticket isn't live, and the run has no answer there.
    NotLive(u32, u32),
    /// At this place the run has its answer, and the log goes on.
    AfterAnswer(u32),
}

impl From<AllocError> for ReplayFault {
    ghost from_gives = { λ _ e. e ≡ NoMemory };

    fn from(_error: AllocError) -> ReplayFault {
        ReplayFault::NoMemory
    }
}
