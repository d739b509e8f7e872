//! Every call on the stacks of a token.

use crate::rows::{Says, first_wrong};
use crate::texts::{call, stacks};
use std::alloc::{AllocError, Global};
use std::test::Fail;
use testing_gates::cut;
use token_stacks::Stacks;

/// Whether these are the words that are listed.
fn are(found: &[u64], listed: &str) -> bool {
    let mut left = found;
    for word in listed.split_whitespace() {
        match left {
            [first, rest @ ..] if word.parse() == Ok(*first) => left = rest,
            _ => return false,
        }
    }
    left.is_empty()
}

/// Whether the words of both stacks are those that are listed, with `|` between the two lists.
fn has_words(stacks: &Stacks, lists: &str) -> bool {
    let (work, boxes) = cut(lists, '|');
    are(stacks.work_words(), work) && are(stacks.box_words(), boxes)
}

/// Whether a row on a call and what it answers and leaves is so.
pub(crate) fn is_change(alloc: Global, row: &str) -> Result<bool, AllocError> {
    let (before, rest) = cut(row, '|');
    let (name, rest) = cut(rest, '|');
    let (answer, words) = cut(rest, '|');
    let mut stacks = stacks(alloc, before)?;
    let made = call(&mut stacks, name)?;
    Ok(made == (answer == "yes") && has_words(&stacks, words))
}

#[test]
fn each_call_is_its_row(rt: HostRuntime) -> Result<(), Fail> {
    let table = "
|R|yes|5|
R|L|yes|5 6|
L|*|yes|6 0 1 7|
L R|-R|yes|6|
L|-R|no|6|
R L|-L|yes|5|
R|-L|no|5|
R *|-*|yes|5|
* l|-*|no|0 1 2 7|
*|l|yes|0 1 2 7|
R|l|no|5|
*|r|yes|0 2 2 7|
|r|no||
* l|-l|yes|0 1 7|
* r|-l|no|0 2 2 7|
* r|-r|yes|0 1 7|
*|-r|no|0 1 7|
* L|argument|yes|0 1 7|
R L|argument|no|5 6|
*|-argument|yes|0 1 7 6|
L|-argument|no|6|
fix * l door box * l|L|yes|0 1 2 7 6|0 0 1 2 3 5
R *|box|yes|5|0 1
* R|box|no|0 1 7 5|
fix|-box|yes|0 1 7|
R|-box|no|5|
fix * l|door|yes|0 0 1 2 3 5 7|
*|door|no|0 1 7|
fix * l door|-door|yes|0 1 2 7|0 1
fix * l|-door|no|0 1 2 7|0 1
L|fix|yes|6|0 1
L fix|-fix|yes|6|
* l box|-fix|no||0 1 2
fix R * r|again|yes|5|0 0 2 2 4 5
*|again|no|0 1 7|
fix * r again|-again|yes|0 2 2 7|0 1
fix|-again|no||0 1
";
    assert!(rt; first_wrong(rt.alloc(), Says::Change, table)? == None);
    Ok(())
}

/// Takes only what threads may hand over and share.
fn crosses<T: Send + Sync>(_value: &T) {}

/// Whether a copy is the same, and the copy of the box stack is less than it with a signature more.
fn copy_is_the_same(stacks: &Stacks) -> Result<bool, AllocError> {
    let mut other = stacks.copy()?;
    if !other.same(stacks) {
        return Ok(false);
    }
    other.fix_in()?;
    Ok(!other.same(stacks) && stacks.boxes() < other.boxes())
}

/// Whether a copy of the box stack is equal to it.
fn box_copy_is_equal(stacks: &Stacks) -> Result<bool, AllocError> {
    Ok(stacks.boxes().copy()? == *stacks.boxes())
}

/// Whether the stacks may cross threads, and their copies are equal and ordered as they should be.
fn copies_are_ordered(alloc: Global) -> Result<bool, AllocError> {
    let stacks = stacks(alloc, "L")?;
    crosses(&stacks);
    Ok(box_copy_is_equal(&stacks)? && copy_is_the_same(&stacks)?)
}

#[test]
fn copies_and_their_order(rt: HostRuntime) -> Result<(), Fail> {
    assert!(rt; copies_are_ordered(rt.alloc())?);
    Ok(())
}

/// Whether the stacks come back from a box as they were, and are others inside.
fn comes_out_of_a_box(stacks: &mut Stacks) -> Result<bool, AllocError> {
    let before = stacks.copy()?;
    let is_in = stacks.box_in()? && !stacks.same(&before);
    Ok(is_in && stacks.box_out()? && stacks.same(&before))
}

/// Whether so many marks and then the star can be taken off, and nothing is left.
fn is_unmarked(stacks: &mut Stacks, count: u32) -> bool {
    for _ in 0..count {
        if !stacks.unwrap_left() {
            return false;
        }
    }
    stacks.pop_star() && stacks.work_is_empty()
}

/// Whether a signature of so many marks goes through a box, and its marks can be taken off again.
fn marks_come_back(alloc: Global, count: u32) -> Result<bool, AllocError> {
    let mut stacks = stacks(alloc, "*")?;
    for _ in 0..count {
        if !stacks.wrap_left()? {
            return Ok(false);
        }
    }
    Ok(comes_out_of_a_box(&mut stacks)? && is_unmarked(&mut stacks, count))
}

#[test]
fn a_signature_of_a_million_marks(rt: HostRuntime) -> Result<(), Fail> {
    assert!(rt; marks_come_back(rt.alloc(), 1_000_000)?);
    Ok(())
}
