//! The run of a net, up to the answer or a budget.

ghost use Rattle.std.specs.Prelude.{◌≡◌, ◌≤◌, OnOk, IfOk, length, Some, None};
ghost use Rattle.pcf_values.specs.declared.val.Val.{Val};
ghost use Rattle.pcf_values.specs.Most.{most_budget};
ghost use Rattle.interleave_laws.specs.Runs.{Runs};
ghost use Rattle.interleave_laws.specs.Maps.{MapState, LeadsToMap};
ghost use Rattle.adequacy_laws.specs.Questions.{Length};
ghost use Rattle.adequacy_laws.specs.Finished.{Beyond};
ghost use Rattle.newest_core.specs.Processor.{newest};
ghost use Rattle.newest_runs.specs.Order.{newest_first};
ghost use Rattle.newest_runs.specs.Moving.{IsMoved};

use crate::moving::{Moving, make_move};
use crate::turn::Turn;
use interleave_core::Core;
use net_build::Net;
use pcf_values::Val;
use std::alloc::{AllocError, Global};

/// What came of a run.
#[derive(Clone, Copy)]
pub struct Ran {
    /// The answer, if it came within the budget.
    pub answer: Option<Val>,
    /// How many moves were made.
    pub moves: u32,
}

/// Nothing has moved yet.
pub(crate) fn begin(alloc: Global, net: &Net) -> Result<Moving, AllocError>
    ensures moved { IfOk result (λ m. IsMoved net.now m.core m.turn m.moves) }
    ensures none { IfOk result (λ m. m.moves ≡ 0) }
{
    let core = Core::start(alloc, net)?;
    Ok(Moving {
        core,
        turn: Turn {
            ticket: Some(0),
            waiting: Vec::new(alloc),
        },
        moves: 0,
    })
}

/// Makes the moves with the newest question first, until the answer comes or the budget is spent.
fn make_run(moving: &mut Moving, net: &Net, budget: u32) -> Result<(), AllocError>
    requires runs { Runs net.now }
    requires budget { budget ≤ most_budget }
    requires moved { IsMoved net.now moving.old.core moving.old.turn moving.old.moves }
    requires within { moving.old.moves ≤ budget }
    ensures moved { OnOk result (IsMoved net.now moving.new.core moving.new.turn moving.new.moves) }
    ensures whole { OnOk result (newest net.now moving.new.moves ≡ newest net.now budget) }
{
    while moving.moves < budget {
        match moving.turn.ticket {
            Some(ticket) => make_move(moving, net, ticket)?,
            None => break,
        }
    }
    Ok(())
}

/// The run of this net with the newest question first, until the answer comes or the budget is spent.
///
/// Besides the net, the run takes the memory of the live tokens and the open forks.
///
/// # Errors
///
/// It runs out of memory.
pub fn newest_run(alloc: Global, net: &Net, budget: u32) -> Result<Ran, AllocError>
    requires runs { Runs net.now }
    requires budget { budget ≤ most_budget }
    ensures moves { IfOk result (λ n. n.moves ≡ length (newest_first net.now budget)) }
    ensures answer { IfOk result (λ n. (S : MapState) × LeadsToMap net.now (newest_first net.now budget) S × (n.answer ≡ S.answered)) }
    ensures as_long { IfOk result (λ n. (v : Val) → n.answer ≡ Some v → Length net.now v n.moves) }
    ensures beyond { IfOk result (λ n. n.answer ≡ None → Beyond net.now budget × (n.moves ≡ budget)) }
{
    let mut moving = begin(alloc, net)?;
    make_run(&mut moving, net, budget)?;
    Ok(Ran {
        answer: moving.core.answer(),
        moves: moving.moves,
    })
}
