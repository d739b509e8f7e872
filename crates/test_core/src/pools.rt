//! Pools by hand.

ghost use Rattle.interleave_laws.specs.Runs.{Runs};
ghost use Rattle.token_pool.specs.Pools.{InLimits};

use crate::branch_pools::ended;
use crate::pool_games::played;
use crate::programs::net_of;
use net_build::Net;
use pcf_values::Val;
use schedule_log::Log;
use std::alloc::{AllocError, Global};
use std::test::Fail;
use testing_gates::number;

/// A pool, by its budget, its workers and its calls, and what it is finished to: the answer, or `-`, the tickets, and the workers.
#[derive(Clone, Copy)]
struct Game<'a> {
    budget: u32,
    workers: u32,
    rows: &'a str,
    answer: &'a str,
    tickets: &'a str,
    makers: &'a str,
}

/// Whether these are the answer's digits, or `-` where there is none.
pub(crate) fn is_answer(answer: Option<Val>, text: &str) -> bool {
    match answer {
        Some(v) => v == Val::Number(number(text) as u64),
        None => text == "-",
    }
}

/// Whether the log has these tickets and workers.
fn has_moves(log: &Log, tickets: &str, makers: &str) -> bool {
    let mut ticket = tickets.split_whitespace();
    let mut maker = makers.split_whitespace();
    for run in log.runs() {
        for _move in 0..run.count() {
            let same = match (ticket.next(), maker.next()) {
                (Some(t), Some(m)) => run.ticket() == number(t) && run.worker() == number(m),
                _ => false,
            };
            if !same {
                return false;
            }
        }
    }
    ticket.next().is_none() && maker.next().is_none()
}

/// Whether a game is so.
fn is_so(alloc: Global, net: &Net, game: Game<'_>) -> Result<bool, AllocError>
    requires runs { Runs net.now }
    requires limits { InLimits game.budget game.workers }
{
    let Some(pool) = played(alloc, net, game.budget, game.workers, game.rows)? else {
        return Ok(false);
    };
    let ended = pool.finish(alloc, net, game.budget, game.workers)?;
    Ok(is_answer(ended.answer, game.answer) && has_moves(&ended.log, game.tickets, game.makers))
}

/// Two workers on `1 + 2` until the last move but three, and all that each is told.
const BOTH: Game<'static> = Game {
    budget: 6,
    workers: 2,
    rows: "\
counts 0 0 1
0 takes 0 3
1 takes idle
1 books nothing
0 books 0
0 takes 0 2
1 takes 1 1
0 takes 0 2
counts 1 2 0
1 books 1
1 books nothing
counts 2 1 1
1 takes 1 1
0 books 2
",
    answer: "3",
    tickets: "0 1 0 0 1 1",
    makers: "0 1 0 2 2 2",
};

/// A budget of two moves.
const SMALL: Game<'static> = Game {
    budget: 2,
    workers: 2,
    rows: "\
0 takes 0 1
0 books 0
0 takes 0 1
1 takes reserved
0 books 1
1 takes ended
0 takes ended
counts 2 0 2
",
    answer: "-",
    tickets: "0 0",
    makers: "0 0",
};

/// The right operand first, each by its own worker, to the answer.
const RIGHT_FIRST: Game<'static> = Game {
    budget: 100,
    workers: 2,
    rows: "\
1 takes 0 50
1 books 0
0 takes 0 49
1 takes 1 25
1 books 1
1 takes 1 24
1 books 2
1 takes idle
0 books 3
0 takes 0 48
0 books 4
1 takes 0 47
1 books 5
0 takes ended
1 takes ended
counts 6 0 0
",
    answer: "3",
    tickets: "0 1 1 0 0 0",
    makers: "1 1 1 0 0 1",
};

/// One worker for one move, and the finisher for all others.
const FINISHED: Game<'static> = Game {
    budget: 100,
    workers: 1,
    rows: "\
0 takes 0 64
0 books 0
0 takes 0 64
",
    answer: "3",
    tickets: "0 0 0 1 1 1",
    makers: "0 1 1 1 1 1",
};

/// The right half of `(1 + 2) + (3 + 4)` as one branch, and the left one in pieces, since it was alone. Behind two branches stands the join
/// before which they stopped: of the four moves that are booked then the branch has one, and of the ten five.
const HALVES: Game<'static> = Game {
    budget: 100,
    workers: 2,
    rows: "\
0 turn 100 plain
0 plays plain 1
0 turn 49 all
1 turn 25 plain
1 plays plain 2
1 turn 24 all
1 plays all 4
0 plays all 10
",
    answer: "10",
    tickets: "0 0 2 2 1 3 3 1 1 1 0 0 0 0",
    makers: "0 1 1 1 0 0 0 0 0 0 2 2 2 2",
};

/// A branch of another worker's token is one step, and a worker without a place changes nothing.
const REFUSED: Game<'static> = Game {
    budget: 100,
    workers: 2,
    rows: "\
0 plays plain 1
0 turn 49 all
1 turn 25 plain
1 brings 0 all 2
2 turn over
2 brings 0 all 2
",
    answer: "10",
    tickets: "0 0 0 0 1 1 1 2 2 2 3 3 3 3",
    makers: "0 1 2 2 2 2 2 2 2 2 2 2 2 2",
};

/// A budget of eight moves: all of it for the only token, and then a half of what is left for each piece.
const SHORT: Game<'static> = Game {
    budget: 8,
    workers: 2,
    rows: "\
0 turn 8 plain
0 plays plain 1
0 turn 3 all
1 turn 2 plain
1 plays plain 2
0 plays all 5
",
    answer: "-",
    tickets: "0 0 1 3 3 0 0 1",
    makers: "0 1 0 0 0 2 2 2",
};

/// A plain branch of two moves on the net of a double, and behind it the fork before which it stopped.
const FORKED: Game<'static> = Game {
    budget: 100,
    workers: 2,
    rows: "\
0 turn 100 plain
0 plays plain 3
",
    answer: "6",
    tickets: "0 0 0 0 0 0 0 0 0 0 0 0 0 0 0 1 1 1 1 1 1 1 1 1 1 1 1 1 1 1",
    makers: "0 0 0 2 2 2 2 2 2 2 2 2 2 2 2 2 2 2 2 2 2 2 2 2 2 2 2 2 2 2",
};

/// Whether a game on one sum is so.
fn is_game(alloc: Global, game: Game<'_>) -> Result<bool, AllocError>
    requires { InLimits game.budget game.workers }
{
    let net = net_of(alloc, "1 + 2")?;
    let so = is_so(alloc, &net, game);
    drop(net);
    so
}

/// Whether a game whose pieces are branches is so.
fn is_branched(alloc: Global, net: &Net, game: Game<'_>) -> Result<bool, AllocError>
    requires runs { Runs net.now }
    requires limits { InLimits game.budget game.workers }
{
    let Some(ended) = ended(alloc, net, game.budget, game.workers, game.rows)? else {
        return Ok(false);
    };
    Ok(is_answer(ended.answer, game.answer) && has_moves(&ended.log, game.tickets, game.makers))
}

/// Whether a game of branches on a program is so.
fn is_branch_game(alloc: Global, text: &str, game: Game<'_>) -> Result<bool, AllocError>
    requires { InLimits game.budget game.workers }
{
    let net = net_of(alloc, text)?;
    let so = is_branched(alloc, &net, game);
    drop(net);
    so
}

#[test]
fn two_workers_play_branches(rt: HostRuntime) -> Result<(), Fail> {
    let halves = "(1 + 2) + (3 + 4)";
    assert!(rt; is_branch_game(rt.alloc(), halves, HALVES)?);
    assert!(rt; is_branch_game(rt.alloc(), halves, REFUSED)?);
    assert!(rt; is_branch_game(rt.alloc(), halves, SHORT)?);
    assert!(rt; is_branch_game(rt.alloc(), "(fun x:nat. x + x) 3", FORKED)?);
    Ok(())
}

#[test]
fn two_workers_take_and_book(rt: HostRuntime) -> Result<(), Fail> {
    assert!(rt; is_game(rt.alloc(), BOTH)?);
    assert!(rt; is_game(rt.alloc(), RIGHT_FIRST)?);
    Ok(())
}

#[test]
fn a_pool_is_finished_from_the_middle(rt: HostRuntime) -> Result<(), Fail> {
    assert!(rt; is_game(rt.alloc(), SMALL)?);
    assert!(rt; is_game(rt.alloc(), FINISHED)?);
    Ok(())
}

/// Whether a stopped pool hands out nothing, and isn't finished.
fn stops(alloc: Global) -> Result<bool, AllocError> {
    let net = net_of(alloc, "1 + 2")?;
    let rows = "\
0 takes 0 3
stop
0 takes stopped
1 takes stopped
counts 0 1 0
";
    match played(alloc, &net, 6, 2, rows)? {
        Some(pool) => Ok(pool.stopped() && pool.finish(alloc, &net, 6, 2).is_err()),
        None => Ok(false),
    }
}

#[test]
fn a_stopped_pool_has_no_end(rt: HostRuntime) -> Result<(), Fail> {
    assert!(rt; stops(rt.alloc())?);
    Ok(())
}
