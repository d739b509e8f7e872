//! Steps of live tickets, in orders that a table gives and in turn.

ghost use Rattle.interleave_laws.specs.Runs.{Runs};

use crate::games::{MOST_MOVES, played};
use crate::programs::net_of;
use crate::tickets::{are_live, go};
use interleave_core::Core;
use net_build::Net;
use pcf_values::Val;
use std::alloc::{AllocError, Global};
use std::test::Fail;

/// Whether the run that the table tells answers this number and leaves no token.
fn answers(alloc: Global, net: &Net, rows: &str, value: u64) -> Result<bool, AllocError>
    requires { Runs net.now }
{
    match played(alloc, net, rows)? {
        Some(core) => { Ok(core.answer() == Some(Val::Number(value)) && are_live(&core, "")) }
        None => Ok(false),
    }
}

/// The same of a program's text.
fn plays(alloc: Global, text: &str, rows: &str, value: u64) -> Result<bool, AllocError> {
    let net = net_of(alloc, text)?;
    let so = answers(alloc, &net, rows, value);
    drop(net);
    so
}

#[test]
fn the_right_operand_goes_first(rt: HostRuntime) -> Result<(), Fail> {
    let rows = "\
live 0
0 stands ask 2 up
0 forked:1 ask 0 up
1 stands ask 1 up
live 0 1
1 went 2 1 down
1 kept
live 0
0 went 1 0 down
0 joined:1,2 3 2 down
0 answered:3
";
    assert!(rt; plays(rt.alloc(), "1 + 2", rows, 3)?);
    let rows = "\
0 forked:1 ask 0 up
1 went 7 1 down
1 kept
0 went 5 0 down
0 joined:5,7 0 2 down
0 answered:0
";
    assert!(rt; plays(rt.alloc(), "5 - 7", rows, 0)?);
    Ok(())
}

#[test]
fn one_worker_on_a_double(rt: HostRuntime) -> Result<(), Fail> {
    let rows = "\
0 stands ask 9 up
0 went ask 6 up R
0 went ask 5 up
0 forked:1 ask 0 up
1 stands ask 2 up
0 went ask 1 down *
0 went ask 4 down * l
0 went ask 6 down * l L
0 went ask 8 up * l
0 went ask 7 up * l box
0 went 3 7 down * l box
0 went 3 8 down * l
0 went 3 6 up * l L
0 went 3 4 up * l
0 went 3 1 up *
0 went 3 0 down
0 kept
live 1
1 went ask 3 down *
1 went ask 4 down * r
1 went ask 6 down * r L
1 went ask 8 up * r
1 went ask 7 up * r box
1 went 3 7 down * r box
1 went 3 8 down * r
1 went 3 6 up * r L
1 went 3 4 up * r
1 went 3 3 up *
1 went 3 2 down
1 joined:3,3 6 5 down
1 went 6 6 down R
1 went 6 9 down
1 answered:6
";
    assert!(rt; plays(rt.alloc(), "(fun x:nat. x + x) 3", rows, 6)?);
    Ok(())
}

/// What a run came to in which each live ticket moves in turn.
#[derive(Drop)]
struct InTurn {
    moves: u32,
    most_live: u32,
    answer: Option<Val>,
}

/// The ticket behind this one in turn.
fn turn(core: &Core, ticket: u32) -> Option<u32> {
    match core.next_live(ticket) {
        Some(next) => Some(next),
        None => core.least_live(),
    }
}

/// Lets each live ticket move in turn.
fn in_turn(alloc: Global, net: &Net) -> Result<InTurn, AllocError>
    requires { Runs net.now }
{
    let mut core = Core::start(alloc, net)?;
    let mut most_live = 0;
    let mut ticket = 0;
    let mut moves = 0;
    while moves < MOST_MOVES {
        match turn(&core, ticket) {
            Some(next) => ticket = next,
            None => break,
        }
        go(net, &mut core, moves, ticket)?;
        moves += 1;
        most_live = most_live.max(core.live_count());
    }
    Ok(InTurn {
        moves,
        most_live,
        answer: core.answer(),
    })
}

/// Whether a program comes to this value in so many moves in turn, with so many tokens live at once.
fn comes_in_turn(
    alloc: Global,
    text: &str,
    value: u64,
    moves: u32,
    most_live: u32,
) -> Result<bool, AllocError> {
    let net = net_of(alloc, text)?;
    let ran = in_turn(alloc, &net);
    drop(net);
    let ran = ran?;
    Ok(ran.answer == Some(Val::Number(value)) && ran.moves == moves && ran.most_live == most_live)
}

#[test]
fn two_entries_of_one_node_at_once(rt: HostRuntime) -> Result<(), Fail> {
    // four tokens live at once: the outer fork and both forks of the inner operator are open
    let twice = "(fun d:nat->nat. d 1 + d 2) (fun x:nat. x + x)";
    assert!(rt; comes_in_turn(rt.alloc(), twice, 6, 126, 4)?);
    Ok(())
}
