//! A run by hand: one step after another.

ghost use Rattle.std.specs.Prelude.{◌≡◌, ◌<◌, ◌+◌, IfOk, IfErr, OnOk, codes, string_bytes};
ghost use Rattle.interleave_laws.specs.Runs.{Runs};
ghost use Rattle.interleave_laws.specs.Tickets.{IsLive};
ghost use Rattle.program_runs.specs.NoRuns.{NoRunFor};
ghost use Rattle.program_runs.specs.Programs.{number, FaultyProgram};
ghost use Rattle.embedding.specs.Hands.{IsAt, IsWalked, WalksText};
ghost use Rattle.embedding.specs.Lines.{RunLine};

use crate::lines::{BUDGET, refused_line, run_line};
use interleave_core::Core;
use interleave_laws::{law_maps, law_progress};
use net_build::Net;
use pcf_values::Val;
use program_runs::{Calling, NoRun, net_for};
use std::alloc::{AllocError, Global};

/// What moves by hand came to.
#[derive(Clone, Copy)]
pub(crate) struct Walked {
    /// The answer, or none within the budget.
    answer: Option<Val>,
    /// How many moves were made.
    moves: u32,
}

/// The line of a text's run by hand.
pub(crate) fn hand_line(alloc: Global, bytes: &[u8]) -> Result<String, AllocError>
    ensures { IfOk result (λ text. RunLine (codes "by hand") bytes.now (string_bytes text)) }
{
    match run_by_hand(alloc, bytes) {
        Ok(walked) => run_line(alloc, "by hand", walked.answer, walked.moves),
        Err(NoRun::Fault(fault)) => refused_line(alloc, "by hand", fault),
        Err(NoRun::Memory) => Err(AllocError),
    }
}

/// What a text's program comes to by hand.
///
/// # Errors
///
/// The first fault of the text, exactly when it has one. Or it runs out of memory.
fn run_by_hand(alloc: Global, bytes: &[u8]) -> Result<Walked, NoRun>
    ensures walked { IfOk result (λ r. WalksText bytes.now r.answer r.moves) }
    ensures fault { IfErr result (λ e. NoRunFor (FaultyProgram number bytes.now) e) }
{
    let net = net_for(alloc, bytes, Calling::ByName)?;
    let walked = walk(alloc, &net);
    drop(net);
    Ok(walked?)
}

/// What a net comes to where the least live token moves at each turn.
fn walk(alloc: Global, net: &Net) -> Result<Walked, AllocError>
    requires { Runs net.now }
    ensures { IfOk result (λ r. IsWalked net.now r.answer r.moves) }
{
    law_maps();
    law_progress();
    let mut core = Core::start(alloc, net)?;
    let mut moves = 0;
    while moves < BUDGET {
        match core.least_live() {
            Some(ticket) => go(net, &mut core, ticket, moves)?,
            None => return Ok(come_to(&core, moves)),
        }
        moves += 1;
    }
    Ok(come_to(&core, moves))
}

/// What so many moves came to in this state.
fn come_to(core: &Core, moves: u32) -> Walked
    ensures answer { result.answer ≡ core.now.answered }
    ensures moves { result.moves ≡ moves }
{
    Walked {
        answer: core.answer(),
        moves,
    }
}

/// One move of a live ticket, in a state to which so many moves led.
fn go(net: &Net, core: &mut Core, ticket: u32, moves: u32) -> Result<(), AllocError>
    requires runs { Runs net.now }
    requires live { IsLive core.old ticket }
    requires few { moves < 10000 }
    requires at { IsAt net.now core.old moves }
    ensures { OnOk result (IsAt net.now core.new (moves + 1)) }
{
    core.step(net, ticket)?;
    Ok(())
}
