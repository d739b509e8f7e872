//! Tables of rows as texts: a row a line, in parts between `|`.

use crate::moves::{moves, passes_both_ways, steps, walks};
use crate::outline::is_outlined;
use crate::printing::is_printed;
use crate::stacks::is_change;
use crate::texts::{Written, net};
use net_build::Net;
use std::alloc::{AllocError, Global};
use testing_gates::cut;

/// What a row says.
#[derive(Clone, Copy)]
pub(crate) enum Says {
    /// Calls that make stacks, a call on them, whether it found its shape, and the words of the work stack and of the box stack after it.
    Change,
    /// A node, and the two places of one of its plain rules.
    Rule,
    /// A node, a token that faces it, and the token after its solo move, or `none`.
    Move,
    /// The number of the node that a token goes through on the net of the double, or nothing, the token, and the one after it.
    Step,
    /// The number of moves that are allowed, 0 for a token that stays, and the same for a walk.
    Walk,
    /// A text, and its tree as it is printed.
    Spelling,
    /// A text, and its tree with all places.
    Tree,
}

/// The net of `(fun x:nat. x + x) 3`.
const DOUBLE: &str =
    "Der 0 1;Der 2 3;Con 1 3 4;Plus 0 2 5;Lam 5 4 6;Const 3 7;Box 7 8;App 6 8 9;Root 9";

/// Whether what a row says of this net is so.
fn holds_on(alloc: Global, net: &Net, says: Says, row: &str) -> Result<bool, AllocError> {
    let (first, rest) = cut(row, '|');
    match says {
        Says::Rule => passes_both_ways(alloc, net, first, rest),
        Says::Move => moves(alloc, net, first, rest),
        Says::Step => steps(alloc, net, first, rest),
        _ => walks(alloc, net, first, rest),
    }
}

/// The nodes of the net that a row is on, and the rest of the row.
fn cut_nodes(says: Says, row: &str) -> (&str, &str) {
    match says {
        Says::Rule | Says::Move => cut(row, '|'),
        _ => (DOUBLE, row),
    }
}

/// Whether what a row says of a net is so.
fn holds_of_net(alloc: Global, says: Says, row: &str) -> Result<bool, AllocError> {
    let (nodes, rest) = cut_nodes(says, row);
    let net = net(alloc, 10, nodes)?;
    holds_on(alloc, &net, says, rest)
}

/// Whether what a row says is so.
fn holds(alloc: Global, says: Says, row: &str) -> Result<bool, AllocError> {
    let (text, wanted) = cut(row, '|');
    match says {
        Says::Change => is_change(alloc, row),
        Says::Spelling => is_printed(alloc, text.as_bytes(), wanted.as_bytes()),
        Says::Tree => is_outlined(alloc, text.as_bytes(), wanted.as_bytes()),
        _ => holds_of_net(alloc, says, row),
    }
}

/// The number of the first line that isn't so. Empty ones are no rows.
pub(crate) fn first_wrong(
    alloc: Global,
    says: Says,
    table: &str,
) -> Result<Option<usize>, AllocError> {
    for (i, row) in table.lines().enumerate() {
        if !row.is_empty() && !holds(alloc, says, row)? {
            return Ok(Some(i));
        }
    }
    Ok(None)
}
