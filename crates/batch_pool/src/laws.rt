//! What holds of batches.

ghost use Rattle.batch_pool.specs.Laws.{PauseHolds};

use token_pool::law_take_keeps;

/// A worker that is told to pause isn't alone: some worker holds a ticket.
pub fn law_pause_holds()
    ensures { PauseHolds }
{
    law_take_keeps();
}
