//! One move of a run.

ghost use Rattle.std.specs.Prelude.{[], ◌∷◌, ◌++◌, ◌≡◌, ◌<◌, suc, Some, OnOk};
ghost use Rattle.pcf_values.specs.Most.{most_budget};
ghost use Rattle.interleave_laws.specs.Runs.{Runs};
ghost use Rattle.newest_core.specs.Processor.{newest};
ghost use Rattle.newest_runs.specs.Moving.{IsMoved};

use crate::turn::{Turn, go_on};
use interleave_core::Core;
use net_build::Net;
use std::alloc::AllocError;

/// A state of a run, whose move is next, and how many moves were made.
#[derive(Drop)]
pub(crate) struct Moving {
    pub(crate) core: Core,
    pub(crate) turn: Turn,
    pub(crate) moves: u32,
}

/// Makes the move of the ticket whose turn it is.
pub(crate) fn make_move(moving: &mut Moving, net: &Net, ticket: u32) -> Result<(), AllocError>
    requires runs { Runs net.now }
    requires moved { IsMoved net.now moving.old.core moving.old.turn moving.old.moves }
    requires next { moving.old.turn.ticket ≡ Some ticket }
    requires room { moving.old.moves < most_budget }
    ensures moved { OnOk result (IsMoved net.now moving.new.core moving.new.turn moving.new.moves) }
    ensures moves { OnOk result (moving.new.moves ≡ suc moving.old.moves) }
    ensures fires { OnOk result (newest net.now (suc moving.old.moves) ≡ newest net.now moving.old.moves ++ ticket ∷ []) }
{
    let stepped = moving.core.step(net, ticket)?;
    moving.moves += 1;
    go_on(&mut moving.turn, stepped)?;
    Ok(())
}
