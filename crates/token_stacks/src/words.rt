//! The words of the encoding, and three steps on vectors of words that no clause on stacks speaks of.

ghost use Rattle.std.specs.Prelude.{◌≡◌, ◌++◌, ◌+◌, ◌-◌, ◌≤◌, ◌<◌, OnOk, OnErr, length, take, drop, vec_len, vec_capacity};
ghost use Rattle.token_stacks.specs.Parts.{Swaps, Writes};

use std::alloc::AllocError;

/// The last word of the body of each form of signature.
pub(crate) const STAR: u64 = 0;

pub(crate) const LEFT: u64 = 1;

pub(crate) const RIGHT: u64 = 2;

pub(crate) const PAIR: u64 = 3;

pub(crate) const AGAIN: u64 = 4;

/// The last word of each form of symbol.
pub(crate) const SYMBOL_R: u64 = 5;

pub(crate) const SYMBOL_L: u64 = 6;

pub(crate) const SIGNATURE: u64 = 7;

/// Adds a piece, for which there is room.
#[inline(always)]
fn add_piece(words: &mut Vec<u64>, piece: &[u64])
    requires { vec_len words.old + length piece.now ≤ vec_capacity words.old }
    ensures items { words.new.items ≡ words.old.items ++ piece.now }
    ensures len { vec_len words.new ≡ vec_len words.old + length piece.now }
    ensures capacity { vec_capacity words.old ≤ vec_capacity words.new }
{
    if piece.len() == 1 {
        words.push_reserved(piece[0]);
        return;
    }
    match words.extend_from_slice(piece) {
        Ok(()) => {}
        Err(_) => unreachable!(),
    }
}

/// Adds few words, for which there is room, one by one.
#[inline(always)]
fn add_ends(words: &mut Vec<u64>, ends: &[u64])
    requires { vec_len words.old + length ends.now ≤ vec_capacity words.old }
    ensures { words.new.items ≡ words.old.items ++ ends.now }
{
    for word in ends {
        words.push_reserved(*word);
    }
}

/// Adds both pieces at the end, or neither. The second is short: the ends of a signature.
#[inline(always)]
pub(crate) fn append(words: &mut Vec<u64>, piece: &[u64], tail: &[u64]) -> Result<(), AllocError>
    ensures ok { OnOk result (words.new.items ≡ words.old.items ++ (piece.now ++ tail.now)) }
    ensures err { OnErr result (words.new.items ≡ words.old.items) }
{
    words.reserve(piece.len() + tail.len())?;
    add_piece(words, piece);
    add_ends(words, tail);
    Ok(())
}

/// The first word goes behind the others.
fn first_behind(part: &mut [u64])
    requires { 1 ≤ length part.old }
    ensures { part.new ≡ drop 1 part.old ++ take 1 part.old }
{
    let first = part[0];
    let n = part.len();
    if n == 2 {
        part[0] = part[1];
        part[1] = first;
        return;
    }
    part.copy_within(1.., 0);
    part[n - 1] = first;
}

/// The first two words go behind the others.
fn two_behind(part: &mut [u64])
    requires { 2 ≤ length part.old }
    ensures { part.new ≡ drop 2 part.old ++ take 2 part.old }
{
    let (first, second) = (part[0], part[1]);
    let n = part.len();
    part.copy_within(2.., 0);
    part[n - 2] = first;
    part[n - 1] = second;
}

/// The first three words go behind the others.
fn three_behind(part: &mut [u64])
    requires { 3 ≤ length part.old }
    ensures { part.new ≡ drop 3 part.old ++ take 3 part.old }
{
    let (first, second, third) = (part[0], part[1], part[2]);
    let n = part.len();
    part.copy_within(3.., 0);
    part[n - 3] = first;
    part[n - 2] = second;
    part[n - 1] = third;
}

/// The last word goes before the others.
fn last_before(part: &mut [u64])
    requires { 1 ≤ length part.old }
    ensures { part.new ≡ drop (length part.old - 1) part.old ++ take (length part.old - 1) part.old }
{
    let n = part.len();
    let last = part[n - 1];
    part.copy_within(..n - 1, 1);
    part[0] = last;
}

/// The last two words go before the others.
fn two_before(part: &mut [u64])
    requires { 2 ≤ length part.old }
    ensures { part.new ≡ drop (length part.old - 2) part.old ++ take (length part.old - 2) part.old }
{
    let n = part.len();
    let (first, second) = (part[n - 2], part[n - 1]);
    part.copy_within(..n - 2, 2);
    part[0] = first;
    part[1] = second;
}

/// The last three words go before the others.
fn three_before(part: &mut [u64])
    requires { 3 ≤ length part.old }
    ensures { part.new ≡ drop (length part.old - 3) part.old ++ take (length part.old - 3) part.old }
{
    let n = part.len();
    let (first, second, third) = (part[n - 3], part[n - 2], part[n - 1]);
    part.copy_within(..n - 3, 3);
    part[0] = first;
    part[1] = second;
    part[2] = third;
}

/// The first `count` words and the others change places: each part is turned round, and then all of it.
fn turn_round(part: &mut [u64], count: usize)
    requires { count ≤ length part.old }
    ensures { part.new ≡ drop count part.old ++ take count part.old }
{
    part[..count].reverse();
    part[count..].reverse();
    part.reverse();
}

/// The first `count` words and the others change places. Where one of both has few words, they are held while the others move.
fn rotate(part: &mut [u64], count: usize)
    requires { count ≤ length part.old }
    ensures { part.new ≡ drop count part.old ++ take count part.old }
{
    match (count, part.len() - count) {
        (1, _) => first_behind(part),
        (_, 1) => last_before(part),
        (2, _) => two_behind(part),
        (_, 2) => two_before(part),
        (3, _) => three_behind(part),
        (_, 3) => three_before(part),
        _ => turn_round(part, count),
    }
}

/// The words from `from` to `middle` and those from there to `end` change places.
#[inline(always)]
pub(crate) fn turn(words: &mut Vec<u64>, from: usize, middle: usize, end: usize)
    requires first { from ≤ middle }
    requires second { middle ≤ end }
    requires whole { end ≤ length words.old.items }
    ensures swapped { Swaps words.old.items words.new.items from middle end }
    ensures len { length words.new.items ≡ length words.old.items }
{
    if from == middle || middle == end {
        return;
    }
    rotate(&mut words[from..end], middle - from);
}

/// Writes three words from this place on.
pub(crate) fn write_three(words: &mut Vec<u64>, at: usize, first: u64, second: u64, third: u64)
    requires { at + 2 < length words.old.items }
    ensures written { Writes words.old.items words.new.items at first second third }
    ensures len { length words.new.items ≡ length words.old.items }
{
    words[at] = first;
    words[at + 1] = second;
    words[at + 2] = third;
}
