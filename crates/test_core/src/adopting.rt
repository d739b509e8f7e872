//! Walks that a state takes over, and walks that it refuses.

ghost use Rattle.interleave_laws.specs.Runs.{Runs};

use crate::games::{has, played};
use crate::programs::net_of;
use crate::texts::Written;
use crate::tickets::are_live;
use interleave_core::Core;
use move_rules::walk;
use net_build::Net;
use std::alloc::{AllocError, Global};
use std::test::Fail;

/// A walk on a net of a token, of at most so many moves.
#[derive(Clone, Copy)]
struct Walk<'a> {
    on: &'a Net,
    from: &'a str,
    most: u32,
}

/// What a state answers that is to take over the walk for a ticket, with at most so many moves.
fn adopts(
    alloc: Global,
    net: &Net,
    core: &mut Core,
    ticket: u32,
    made: Walk<'_>,
    most: u32,
) -> Result<Option<u32>, AllocError>
    requires { Runs net.now }
{
    let from = Written::token(made.from).made(alloc)?;
    let moved = walk(alloc, made.on, from, made.most)?;
    Ok(core.adopt(net, ticket, moved, most))
}

/// The state of a double after its fork.
fn forked(alloc: Global, net: &Net) -> Result<Core, AllocError>
    requires { Runs net.now }
{
    let rows = "\
0 went ask 6 up R
0 went ask 5 up
0 forked:1 ask 0 up
1 stands ask 2 up
";
    match played(alloc, net, rows)? {
        Some(core) => Ok(core),
        None => Err(AllocError),
    }
}

/// Whether the left question of the double goes so far in a walk of so many moves, and the right one stays.
fn goes(alloc: Global, net: &Net, moves: u32, to: &str) -> Result<bool, AllocError>
    requires { Runs net.now }
{
    let mut core = forked(alloc, net)?;
    let made = Walk {
        on: net,
        from: "ask 0 up",
        most: moves,
    };
    let count = adopts(alloc, net, &mut core, 0, made, moves)?;
    Ok(count == Some(moves) && stands(alloc, &core, to)?)
}

/// Whether ticket 0 of the double has this token, and ticket 1 the right question.
fn stands(alloc: Global, core: &Core, left: &str) -> Result<bool, AllocError> {
    Ok(are_live(core, "0 1") && has(alloc, core, 0, left)? && has(alloc, core, 1, "ask 2 up")?)
}

/// Whether the state of the double refuses the walk, and stays as it was.
fn refuses(
    alloc: Global,
    net: &Net,
    ticket: u32,
    made: Walk<'_>,
    most: u32,
) -> Result<bool, AllocError>
    requires { Runs net.now }
{
    let mut core = forked(alloc, net)?;
    let count = adopts(alloc, net, &mut core, ticket, made, most)?;
    Ok(count.is_none() && stands(alloc, &core, "ask 0 up")?)
}

/// Whether walks of one, three and all eleven solo moves are taken over.
fn all_go(alloc: Global, net: &Net) -> Result<bool, AllocError>
    requires { Runs net.now }
{
    Ok(
        goes(alloc, net, 1, "ask 1 down *")?
            && goes(alloc, net, 3, "ask 6 down * l L")?
            && goes(alloc, net, 11, "3 0 down")?,
    )
}

/// The same on the net of the double.
fn walks_go(alloc: Global) -> Result<bool, AllocError> {
    let net = net_of(alloc, "(fun x:nat. x + x) 3")?;
    let so = all_go(alloc, &net);
    drop(net);
    so
}

#[test]
fn walks_are_taken_over(rt: HostRuntime) -> Result<(), Fail> {
    assert!(rt; walks_go(rt.alloc())?);
    Ok(())
}

/// Whether walks on the net itself are refused: of no moves, of too many, of another token, of a ticket that isn't live.
fn all_refused(alloc: Global, net: &Net) -> Result<bool, AllocError>
    requires { Runs net.now }
{
    let left = Walk {
        on: net,
        from: "ask 0 up",
        most: 11,
    };
    let still = Walk { most: 0, ..left };
    let right = Walk {
        from: "ask 2 up",
        ..left
    };
    Ok(
        refuses(alloc, net, 0, still, 11)?
            && refuses(alloc, net, 0, left, 10)?
            && refuses(alloc, net, 0, right, 11)?
            && refuses(alloc, net, 2, left, 11)?,
    )
}

/// The same on the net of the double.
fn own_walks_refused(alloc: Global) -> Result<bool, AllocError> {
    let net = net_of(alloc, "(fun x:nat. x + x) 3")?;
    let so = all_refused(alloc, &net);
    drop(net);
    so
}

/// Whether a walk on another program's net is refused.
fn is_refused(alloc: Global, net: &Net, other: &str) -> Result<bool, AllocError>
    requires { Runs net.now }
{
    let other = net_of(alloc, other)?;
    let made = Walk {
        on: &other,
        from: "ask 0 up",
        most: 11,
    };
    refuses(alloc, net, 0, made, 11)
}

/// Whether a walk through a node that the net hasn't is refused: another constant, and a node past the last.
fn foreign_walks_refused(alloc: Global, other: &str) -> Result<bool, AllocError> {
    let net = net_of(alloc, "(fun x:nat. x + x) 3")?;
    let so = is_refused(alloc, &net, other);
    drop(net);
    so
}

#[test]
fn walks_are_refused(rt: HostRuntime) -> Result<(), Fail> {
    assert!(rt; own_walks_refused(rt.alloc())?);
    assert!(rt; foreign_walks_refused(rt.alloc(), "(fun x:nat. x + x) 4")?);
    assert!(rt; foreign_walks_refused(rt.alloc(), "(fun x:nat. x + x) (succ (succ 3))")?);
    Ok(())
}
