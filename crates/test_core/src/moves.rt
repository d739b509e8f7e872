//! Every row of the table of moves, in both directions where it holds in both, and walks over a whole net.

use crate::rows::{Says, first_wrong};
use crate::texts::Written;
use move_rules::{Kind, Moved, Seen, Token, faced, plain_move, solo_move, solo_step, walk};
use net_build::Net;
use pcf_values::Val;
use std::alloc::{AllocError, Global};
use std::test::Fail;
use testing_gates::{cut, number};

/// Whether the trail goes through the net's nodes of these numbers, and no others.
fn goes_through(net: &Net, trail: &[Seen], numbers: &str) -> bool {
    let mut left = trail;
    for word in numbers.split_whitespace() {
        match left {
            [seen, rest @ ..] if number(word) == seen.at && net.node(seen.at) == Some(seen.node) =>
                {
                    left = rest;
                }
            _ => return false,
        }
    }
    left.is_empty()
}

/// A walk of at most so many moves.
fn walked(alloc: Global, net: &Net, most: u32, token: Token) -> Result<Moved, AllocError> {
    match most {
        0 => Moved::still(alloc, token),
        1 => plain_move(alloc, net, token),
        _ => walk(alloc, net, token, most),
    }
}

/// Whether such a walk goes from the one token through the nodes of these numbers to the other.
fn leads(
    alloc: Global,
    net: &Net,
    most: u32,
    numbers: &str,
    from: Written<'_>,
    to: Written<'_>,
) -> Result<bool, AllocError> {
    let moved = walked(alloc, net, most, from.made(alloc)?)?;
    if !goes_through(net, moved.trail(), numbers) {
        return Ok(false);
    }
    are(alloc, moved.before(), from, moved.after(), to)
}

/// Whether these are the two tokens.
fn are(
    alloc: Global,
    before: &Token,
    from: Written<'_>,
    after: &Token,
    to: Written<'_>,
) -> Result<bool, AllocError> {
    Ok(from.is(alloc, before)? && to.is(alloc, after)?)
}

/// Whether tokens of this kind go from the one place through the node 0 to the other, and turned round the other way.
fn passes(alloc: Global, net: &Net, kind: Kind, from: &str, to: &str) -> Result<bool, AllocError> {
    let from = Written::at(kind, from);
    let to = Written::at(kind, to);
    Ok(
        leads(alloc, net, 1, "0", from, to)?
            && leads(alloc, net, 1, "0", to.turned(), from.turned())?,
    )
}

/// Whether questions and answers do.
pub(crate) fn passes_both_ways(
    alloc: Global,
    net: &Net,
    from: &str,
    to: &str,
) -> Result<bool, AllocError> {
    let five = Kind::Ans(Val::Number(5));
    Ok(passes(alloc, net, Kind::Ask, from, to)? && passes(alloc, net, five, from, to)?)
}

#[test]
fn each_plain_rule_in_both_directions(rt: HostRuntime) -> Result<(), Fail> {
    let rules = "
Lam 0 1 2|2 up L R|0 up L
Lam 0 1 2|1 down R *|2 down R * L
App 0 1 2|2 up L|0 up L R
App 0 1 2|0 down R * L|1 up R *
Box 0 1|1 up fix R * l|0 up fix R * l box
Door 0 1|0 down fix R * l|1 down fix R * l door
Der 0 1|0 up L|1 down L *
Con 0 1 2|0 down R *|2 down R * l
Con 0 1 2|1 down R *|2 down R * r
FixBox 0 1 2|2 up R|0 up R fix
FixBox 0 1 2|1 down fix R * r|0 up fix R * r again
Pair 0 1 2|2 up R L|0 up R
Pair 0 1 2|2 up L R|1 up L
Fst 0 1|1 up R|0 up R L
Snd 0 1|1 up L|0 up L R
";
    assert!(rt; first_wrong(rt.alloc(), Says::Rule, rules)? == None);
    Ok(())
}

/// Whether the token goes through the node 0 to the other, or has no solo move where that is `none`.
pub(crate) fn moves(alloc: Global, net: &Net, from: &str, to: &str) -> Result<bool, AllocError> {
    let token = Written::token(from);
    match to {
        "none" => leads(alloc, net, 1, "", token, token),
        _ => leads(alloc, net, 1, "0", token, Written::token(to)),
    }
}

#[test]
fn numbers_tests_and_no_moves(rt: HostRuntime) -> Result<(), Fail> {
    // the last two: the first row that fits, where a node names one wire twice, and a wire that the net lacks
    let table = "
Const 7 0|ask 0 up fix|7 0 down fix
Const 7 0|ask 0 up R|none
Const 7 0|5 0 up|none
Succ 0 1|ask 1 up fix|ask 0 up fix
Succ 0 1|5 0 down fix|6 1 down fix
Succ 0 1|ask 0 down|none
Pred 0 1|ask 1 up|ask 0 up
Pred 0 1|overflow 0 down|overflow 1 down
Ifz 0 1 2 3|ask 3 up fix|ask 0 up fix
Ifz 0 1 2 3|0 0 down fix|ask 1 up fix
Ifz 0 1 2 3|5 0 down|ask 2 up
Ifz 0 1 2 3|overflow 0 down|ask 2 up
Ifz 0 1 2 3|5 1 down fix|5 3 down fix
Ifz 0 1 2 3|overflow 2 down|overflow 3 down
Ifz 0 1 2 3|5 1 down L|none
Plus 0 1 2|ask 2 up|none
Plus 0 1 2|5 0 down|none
Minus 0 1 2|ask 2 up|none
Times 0 1 2|5 1 down|none
Root 0|5 0 down|none
Weak 0|ask 0 up *|none
Lam 0 1 2|ask 2 up|none
FixBox 0 0 1|ask 0 down fix * again *|ask 0 up fix * again * again
Const 7 10|ask 10 up|none
";
    assert!(rt; first_wrong(rt.alloc(), Says::Move, table)? == None);
    Ok(())
}

/// Whether the token's move in place goes through the node that it faces, of this number, or through none.
fn makes_step(net: &Net, token: &mut Token, numbers: &str) -> Result<bool, AllocError> {
    let ahead = faced(net, token);
    match solo_move(net, token)? {
        Some(seen) => Ok(ahead == Some(seen) && goes_through(net, &[seen], numbers)),
        None => Ok(numbers.is_empty()),
    }
}

/// Whether the move in place leads from the one token to the other, through these nodes.
fn leads_in_place(
    alloc: Global,
    net: &Net,
    numbers: &str,
    from: Written<'_>,
    to: Written<'_>,
) -> Result<bool, AllocError> {
    let mut token = from.made(alloc)?;
    if !makes_step(net, &mut token, numbers)? {
        return Ok(false);
    }
    to.is(alloc, &token)
}

/// Whether the step that answers no node leads there too, and says whether it was made.
fn leads_alone(
    alloc: Global,
    net: &Net,
    numbers: &str,
    from: Written<'_>,
    to: Written<'_>,
) -> Result<bool, AllocError> {
    let mut token = from.made(alloc)?;
    if solo_step(net, &mut token)? == numbers.is_empty() {
        return Ok(false);
    }
    to.is(alloc, &token)
}

/// Whether the token gets from the one place to the other by its next move and in place.
pub(crate) fn steps(
    alloc: Global,
    net: &Net,
    numbers: &str,
    tokens: &str,
) -> Result<bool, AllocError> {
    let (from, to) = cut(tokens, '|');
    let from = Written::token(from);
    let to = Written::token(to);
    Ok(
        leads(alloc, net, 1, numbers, from, to)?
            && leads_in_place(alloc, net, numbers, from, to)?
            && leads_alone(alloc, net, numbers, from, to)?,
    )
}

#[test]
fn the_trace_of_a_double(rt: HostRuntime) -> Result<(), Fail> {
    // the left operand's question from the fork to the join, and the answer's way home from there
    let trace = "
|ask 5 up|ask 5 up
0|ask 0 up|ask 1 down *
2|ask 1 down *|ask 4 down * l
4|ask 4 down * l|ask 6 down * l L
7|ask 6 down * l L|ask 8 up * l
6|ask 8 up * l|ask 7 up * l box
5|ask 7 up * l box|3 7 down * l box
6|3 7 down * l box|3 8 down * l
7|3 8 down * l|3 6 up * l L
4|3 6 up * l L|3 4 up * l
2|3 4 up * l|3 1 up *
0|3 1 up *|3 0 down
|3 0 down|3 0 down
4|6 5 down|6 6 down R
7|6 6 down R|6 9 down
";
    assert!(rt; first_wrong(rt.alloc(), Says::Step, trace)? == None);
    Ok(())
}

/// Whether a token is copied, and handed out again where it stays.
fn is_copied(alloc: Global, token: Written<'_>) -> Result<bool, AllocError> {
    let made = token.made(alloc)?;
    let copy = made.copy()?;
    let after = Moved::still(alloc, made)?.into_after();
    Ok(after.same(&copy))
}

/// Whether a walk of at most so many moves goes through the nodes of these numbers from the one token to the other, which can be copied.
pub(crate) fn walks(alloc: Global, net: &Net, most: &str, rest: &str) -> Result<bool, AllocError> {
    let (numbers, tokens) = cut(rest, '|');
    let (from, to) = cut(tokens, '|');
    let from = Written::token(from);
    let to = Written::token(to);
    Ok(leads(alloc, net, number(most), numbers, from, to)? && is_copied(alloc, to)?)
}

#[test]
fn walks_of_a_double(rt: HostRuntime) -> Result<(), Fail> {
    let table = "
64|0 2 4 7 6 5 6 7 4 2 0|ask 0 up|3 0 down
3|0 2 4|ask 0 up|ask 6 down * l L
0||ask 0 up|ask 0 up
";
    assert!(rt; first_wrong(rt.alloc(), Says::Walk, table)? == None);
    Ok(())
}
