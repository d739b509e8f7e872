//! The run of one worker.

ghost use Rattle.std.specs.Prelude.{◌≤◌};
ghost use Rattle.interleave_laws.specs.Runs.{Runs};

use crate::programs::net_of;
use interleave_core::{Tickets, run_one};
use net_build::Net;
use pcf_values::Val;
use std::alloc::{AllocError, Global};
use std::test::Fail;

/// Whether one worker within the budget comes to this answer, in so many moves.
fn comes(
    alloc: Global,
    net: &Net,
    budget: u32,
    answer: Option<Val>,
    moves: u32,
) -> Result<bool, AllocError>
    requires runs { Runs net.now }
    requires some { 1 ≤ budget }
    requires within { budget ≤ 10000 }
{
    let ran = run_one(alloc, net, budget)?;
    Ok(ran.answer == answer && ran.tickets.len() == moves)
}

/// The same of a program's text.
fn runs(
    alloc: Global,
    text: &str,
    budget: u32,
    answer: Option<Val>,
    moves: u32,
) -> Result<bool, AllocError>
    requires some { 1 ≤ budget }
    requires within { budget ≤ 10000 }
{
    let net = net_of(alloc, text)?;
    let so = comes(alloc, &net, budget, answer, moves);
    drop(net);
    so
}

#[test]
fn values_and_lengths(rt: HostRuntime) -> Result<(), Fail> {
    let alloc = rt.alloc();
    let sum_to_three = "(fix f:nat->nat. fun n:nat. ifz n then 0 else n + f (pred n)) 3";
    assert!(rt; runs(alloc, "1 + 2", 6, Some(Val::Number(3)), 6)?);
    assert!(rt;
        runs(
            alloc,
            "(fun x:nat. x + x) 3",
            10_000,
            Some(Val::Number(6)),
            30
        )?
    );
    assert!(rt; runs(alloc, sum_to_three, 330, Some(Val::Number(6)), 330)?);
    Ok(())
}

#[test]
fn budgets_that_are_too_small(rt: HostRuntime) -> Result<(), Fail> {
    let alloc = rt.alloc();
    assert!(rt; runs(alloc, "1 + 2", 5, None, 5)?);
    assert!(rt; runs(alloc, "1 + 2", 1, None, 1)?);
    assert!(rt; runs(alloc, "fix y:nat. y", 10_000, None, 10_000)?);
    Ok(())
}

/// Whether the list of tickets is three moves of ticket 0 and three of ticket 1.
fn is_three_and_three(tickets: &Tickets) -> bool {
    let mut zeros = 0u32;
    let mut ones = 0u32;
    for run in tickets.runs() {
        match run.ticket {
            0 if ones == 0 => zeros = zeros.saturating_add(run.count),
            1 => ones = ones.saturating_add(run.count),
            _ => return false,
        }
    }
    zeros == 3 && ones == 3
}

/// Whether one worker moves these tickets on a sum.
fn tickets_of_a_sum(alloc: Global) -> Result<bool, AllocError> {
    let net = net_of(alloc, "1 + 2")?;
    let ran = run_one(alloc, &net, 100);
    drop(net);
    Ok(is_three_and_three(&ran?.tickets))
}

#[test]
fn the_least_ticket_moves(rt: HostRuntime) -> Result<(), Fail> {
    assert!(rt; tickets_of_a_sum(rt.alloc())?);
    Ok(())
}
