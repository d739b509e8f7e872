//! Whose move is next, and who waits.

ghost use Rattle.std.specs.Prelude.{OnOk};
ghost use Rattle.newest_runs.specs.Moving.{Takes, GoesOn};

use interleave_core::Stepped;
use std::alloc::AllocError;

/// The ticket that moves, and those that wait.
#[derive(Drop)]
pub(crate) struct Turn {
    /// The ticket that moves next; none behind the answer.
    pub(crate) ticket: Option<u32>,
    /// The tickets of the right questions that wait, the newest last.
    pub(crate) waiting: Vec<u32>,
}

/// The newest ticket that waits goes on.
fn take_waiting(turn: &mut Turn)
    ensures { Takes turn.old turn.new }
{
    match turn.waiting.pop() {
        Some(ticket) => turn.ticket = Some(ticket),
        None => {}
    }
}

/// Goes on behind a step of the ticket that moves.
pub(crate) fn go_on(turn: &mut Turn, stepped: Stepped) -> Result<(), AllocError>
    ensures { OnOk result (GoesOn stepped turn.old turn.new) }
{
    match stepped {
        Stepped::Went | Stepped::Joined(_, _) => {}
        Stepped::Forked(right) => turn.waiting.push(right)?,
        Stepped::Kept => take_waiting(turn),
        Stepped::Answered(_) => turn.ticket = None,
    }
    Ok(())
}
