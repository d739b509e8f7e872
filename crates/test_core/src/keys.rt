//! The table in which the answers of forks meet: two open forks at once, whose keys differ in one part.

ghost use Rattle.std.specs.Prelude.{◌≡◌, [], ◌∷◌, None, Some, IfOk, OnOk, if◌then◌else◌};
ghost use Rattle.std.specs.FinMap.{empty, get};
ghost use Rattle.token_stacks.specs.Signatures.{star};
ghost use Rattle.pcf_values.specs.declared.val.Val.TheVariants.{Number};
ghost use Rattle.fork_join.specs.Entries.{pending};
ghost use Rattle.fork_join.specs.Arrivals.{IsOpenFor, arrival};
ghost use Rattle.test_core.specs.KeyByKey.{Stays, AreApart, kept_then};

use fork_join::{Arrived, JoinTable, Kept};
use pcf_values::{Side, Val};
use std::alloc::{AllocError, Global};
use std::test::Fail;
use token_stacks::{BoxStack, Stacks};

/// Stacks with no box open, or with one.
fn opened(alloc: Global, one: bool) -> Result<Stacks, AllocError>
    ensures { IfOk result (λ a. a.boxes ≡ if one then star ∷ [] else []) }
{
    let mut stacks = Stacks::empty(alloc);
    if one {
        stacks.fix_in()?;
    }
    Ok(stacks)
}

/// Opens an entry, and leaves all others.
fn begin(table: &mut JoinTable, node: u32, boxes: &BoxStack) -> Result<(), AllocError>
    requires { get table.old (node, boxes.now) ≡ None }
    ensures here { OnOk result (get table.new (node, boxes.now) ≡ Some pending) }
    ensures others { OnOk result (Stays table.old table.new (node, boxes.now)) }
{
    table.begin(node, boxes.copy()?)
}

/// Brings an answer to an entry, and leaves all others.
fn arrive(table: &mut JoinTable, node: u32, boxes: &BoxStack, side: Side, v: u64) -> Arrived
    requires { IsOpenFor (get table.old (node, boxes.now)) side }
    ensures arrived { result ≡ arrival (get table.old (node, boxes.now)) }
    ensures here { get table.new (node, boxes.now) ≡ kept_then (get table.old (node, boxes.now)) side (Number v) }
    ensures others { Stays table.old table.new (node, boxes.now) }
{
    table.arrive(node, boxes, side, Val::Number(v))
}

/// Whether the open entries are these two, in this order, by their nodes and by what is kept.
fn are_open(table: &JoinTable, low: (u32, Kept), high: (u32, Kept)) -> Result<bool, AllocError> {
    let list = table.entries()?;
    let so = match list.as_slice() {
        [one, two] => (one.node, one.kept) == low && (two.node, two.kept) == high,
        _ => false,
    };
    Ok(so)
}

/// Whether of two forks that begin together each meets its own answers, though the one's left answer comes first and the other's right.
/// Between the answers both are listed, the first one before the second if its key is the lower one.
fn meet_apart(
    table: &mut JoinTable,
    a: u32,
    s: &BoxStack,
    b: u32,
    t: &BoxStack,
    lower: bool,
) -> Result<bool, AllocError>
    requires fresh { table.old ≡ empty }
    requires apart { AreApart (a, s.now) (b, t.now) }
{
    begin(table, a, s)?;
    begin(table, b, t)?;
    let firsts = (
        arrive(table, a, s, Side::Left, 1),
        arrive(table, b, t, Side::Right, 2),
    );
    let left = (a, Kept::Left(Val::Number(1)));
    let right = (b, Kept::Right(Val::Number(2)));
    let (low, high) = if lower { (left, right) } else { (right, left) };
    let in_order = are_open(table, low, high)?;
    let seconds = (
        arrive(table, a, s, Side::Right, 3),
        arrive(table, b, t, Side::Left, 4),
    );
    Ok(
        in_order
            && firsts == (Arrived::First, Arrived::First)
            && seconds == (Arrived::Both(Val::Number(1)), Arrived::Both(Val::Number(2))),
    )
}

/// The same of two nodes, and box stacks with a box or none; whether the first key is the lower one.
fn met(
    alloc: Global,
    (a, s): (u32, bool),
    (b, t): (u32, bool),
    lower: bool,
) -> Result<bool, AllocError> {
    let first = opened(alloc, s)?;
    let second = opened(alloc, t)?;
    let mut table = JoinTable::new(alloc);
    if a == b && s == t {
        return Ok(false);
    }
    meet_apart(&mut table, a, first.boxes(), b, second.boxes(), lower)
}

#[test]
fn forks_meet_by_node_and_box_stack(rt: HostRuntime) -> Result<(), Fail> {
    let cases = [
        (3, false, 4, false, true),
        (4, false, 3, false, false),
        (3, false, 3, true, true),
        (3, true, 3, false, false),
        (3, true, 4, false, true),
    ];
    for (a, s, b, t, lower) in cases {
        assert!(rt; met(rt.alloc(), (a, s), (b, t), lower)?);
    }
    Ok(())
}
