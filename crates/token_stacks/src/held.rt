//! Both stacks in one list of words, and what stands on top of each.

ghost use Rattle.std.specs.Prelude.{◌≡◌, ◌+◌, ◌≤◌, None, IfSome, take, drop, length};
ghost use Rattle.token_stacks.specs.Reading.{work_of, boxes_of};
ghost use Rattle.token_stacks.specs.Tops.{IsHeld, AreBoxes, HasTop, HasBox, HasPair, HasAgain, top_sig, box_sig, top_pair, box_again};

use crate::BoxStack;
use crate::words::{AGAIN, PAIR, SIGNATURE};

/// The words of the box stack, from its bottom up to the border, and behind them those of the work stack, from its bottom.
#[derive(Drop)]
pub(crate) struct Held {
    pub(crate) words: Vec<u64>,
    pub(crate) border: usize,
}

/// What is held, as its box stack alone: the same words and the same border, read at the same place. A box stack hides what stands behind
/// its border, and a type that hides something can't lie open within another, so this goes through a pointer; its proof is written
/// out by hand, and no caller sees it.
pub(crate) fn front(held: &Held) -> &BoxStack
    requires { AreBoxes held.now.words.items held.now.border }
    ensures { result.now ≡ boxes_of (take held.now.border held.now.words.items) }
{
    unsafe { &*(held as *const Held as *const BoxStack) }
}

/// How many words the body of the signature on top of the work stack has.
pub(crate) fn top_size(held: &Held) -> Option<usize>
    requires { IsHeld held.now.words.items held.now.border }
    ensures some { IfSome result (λ k. HasTop held.now.words.items held.now.border k) }
    ensures fits { IfSome result (λ k. held.now.border + k + 2 ≤ length held.now.words.items) }
    ensures long { IfSome result (λ k. 1 ≤ k) }
    ensures none { result ≡ None → top_sig (work_of (drop held.now.border held.now.words.items)) ≡ None }
{
    let n = held.words.len();
    if n - held.border < 3 || held.words[n - 1] != SIGNATURE {
        return None;
    }
    Some(held.words[n - 2] as usize)
}

/// How many words the body of the signature on top of the box stack has.
pub(crate) fn box_size(held: &Held) -> Option<usize>
    requires { IsHeld held.now.words.items held.now.border }
    ensures some { IfSome result (λ k. HasBox held.now.words.items held.now.border k) }
    ensures fits { IfSome result (λ k. k + 1 ≤ held.now.border) }
    ensures long { IfSome result (λ k. 1 ≤ k) }
    ensures none { result ≡ None → box_sig (boxes_of (take held.now.border held.now.words.items)) ≡ None }
{
    if held.border == 0 {
        return None;
    }
    Some(held.words[held.border - 1] as usize)
}

/// How many words the bodies of both parts of the pair on top of the work stack have.
pub(crate) fn pair_sizes(held: &Held) -> Option<(usize, usize)>
    requires { IsHeld held.now.words.items held.now.border }
    ensures some { IfSome result (λ k. HasPair held.now.words.items held.now.border k.0 k.1) }
    ensures fits { IfSome result (λ k. held.now.border + k.0 + k.1 + 4 ≤ length held.now.words.items) }
    ensures none { result ≡ None → top_pair (work_of (drop held.now.border held.now.words.items)) ≡ None }
{
    let size = top_size(held)?;
    let n = held.words.len();
    if held.words[n - 3] != PAIR {
        return None;
    }
    let second = held.words[n - 4] as usize;
    Some((size - 2 - second, second))
}

/// How many words the bodies of both parts of the `y` on top of the box stack have.
pub(crate) fn again_sizes(held: &Held) -> Option<(usize, usize)>
    requires { IsHeld held.now.words.items held.now.border }
    ensures some { IfSome result (λ k. HasAgain held.now.words.items held.now.border k.0 k.1) }
    ensures fits { IfSome result (λ k. k.0 + k.1 + 3 ≤ held.now.border) }
    ensures none { result ≡ None → box_again (boxes_of (take held.now.border held.now.words.items)) ≡ None }
{
    let size = box_size(held)?;
    if held.words[held.border - 2] != AGAIN {
        return None;
    }
    let second = held.words[held.border - 3] as usize;
    Some((size - 2 - second, second))
}
