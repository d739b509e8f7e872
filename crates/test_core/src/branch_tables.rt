//! Runs as tables.

use crate::branches::is_played;
use crate::programs::net_of;
use std::alloc::{AllocError, Global};
use std::test::Fail;

/// Whether a program's run goes by this table.
fn goes(alloc: Global, text: &str, rows: &str) -> Result<bool, AllocError> {
    let net = net_of(alloc, text)?;
    is_played(alloc, net, rows)
}

/// The two halves of a sum as whole branches, the right one first.
const HALVES: &str = "step 0
live 0 1
open 1
1 1 100 all 5 1*1 2*2 1*2
live 0 1
open 1
0 0 100 all 5 0*1 3*2 0*2
live 0 1
open 1
step 1
step 0
step 0
answer 10";

/// The same by branches of few moves, which leave their forks open, so that their joins are the machine's own to make.
const PIECES: &str = "step 0
0 0 2 all 2 0*1 2*1
live 0 1 2
open 2
1 1 1 all 1 1*1
live 0 1 2 3
2 2 100 all 0
0 0 100 all 1 0*1
open 3
step 0
live 1 2 3
2 2 0 all 0
step 2
2 2 9 plain 0
1 1 9 plain 1 1*1
step 1
3 3 9 plain 1 3*1
step 3
live 2 3
step 3
2 2 9 all 0
step 2
step 2
live
answer 10";

/// A run that is one branch but for its last move.
const WHOLE: &str = "0 0 100 all 29 0*3 1*12 0*14
live 0
open 0
step 0
answer 6";

/// A plain branch, one that stops before the join of a fork that isn't its own, and branches of another token, which are refused.
const PARTS: &str = "0 0 100 plain 2 0*2
live 0
step 0
live 0 1
open 1
1 1 100 all 11 1*11
1 1 100 all 0
0 1 100 all refused
7 1 100 all refused
live 0 1";

#[test]
fn a_run_is_made_of_branches(rt: HostRuntime) -> Result<(), Fail> {
    assert!(rt; goes(rt.alloc(), "(1 + 2) + (3 + 4)", HALVES)?);
    assert!(rt; goes(rt.alloc(), "(1 + 2) + (3 + 4)", PIECES)?);
    assert!(rt; goes(rt.alloc(), "(fun x:nat. x + x) 3", WHOLE)?);
    assert!(rt; goes(rt.alloc(), "(fun x:nat. x + x) 3", PARTS)?);
    Ok(())
}
