//! Stacks as text, from their words. Nothing recurses: what is still to be written of a signature stands in a list.

ghost use Rattle.std.specs.Prelude.{◌≡◌, ◌∷◌, [], ◌++◌, ◌≤◌, ◌+◌, ◌*◌, IfOk, OnOk, codes, decimal, length};
ghost use Rattle.std.specs.Prelude.{map, List};
ghost use Rattle.std.specs.Option.{MatchOption};
ghost use Rattle.token_stacks.specs.Signatures.{Sig, Sym, S, Work, Boxes};
ghost use Rattle.token_stacks.specs.Words.{body, box_words};
ghost use Rattle.token_stacks.specs.WorkWords.{work_words};
ghost use Rattle.token_stacks.specs.Texts.{sig_text, sym_text, dots, dotted, first_parts, work_text, boxes_text, key_text};
ghost use Rattle.token_stacks.specs.Tops.{IsBody};
ghost use Rattle.token_stacks.specs.Printing.{IsStack, IsTop, TakesTop, AreParts, IsPart, held, piece_text, piece_work, Writes};

use crate::words::{LEFT, PAIR, RIGHT, STAR, SYMBOL_L, SYMBOL_R};
use crate::{BoxStack, Stacks};
use itoa::Buffer;
use std::alloc::{AllocError, Global};

/// How deep a signature is written, and how many parts of a stack.
const MOST_DEEP: usize = 12;

const MOST_PARTS: usize = 8;

/// For so many pieces there is room at once.
const ROOM: usize = 16;

/// Appends the text of a token's work stack: its top so many parts, each signature so deep.
///
/// # Errors
///
/// It runs out of memory; what is appended by then says nothing.
pub fn push_work(alloc: Global, text: &mut Vec<u8>, stacks: &Stacks) -> Result<(), AllocError>
    ensures { OnOk result (text.new.items ≡ text.old.items ++ work_text stacks.now.work) }
{
    push_stack(
        alloc,
        text,
        Form::Symbols,
        stacks.work_words(),
        MOST_PARTS,
        MOST_DEEP,
    )
}

/// Appends the text of a box stack: its top so many parts, each so deep.
///
/// # Errors
///
/// It runs out of memory; what is appended by then says nothing.
pub fn push_boxes(alloc: Global, text: &mut Vec<u8>, boxes: &BoxStack) -> Result<(), AllocError>
    ensures { OnOk result (text.new.items ≡ text.old.items ++ boxes_text boxes.now) }
{
    push_stack(
        alloc,
        text,
        Form::Signatures,
        boxes.words(),
        MOST_PARTS,
        MOST_DEEP,
    )
}

/// Appends the whole text of a box stack, which is the key of something.
///
/// # Errors
///
/// It runs out of memory; what is appended by then says nothing.
pub fn push_key(alloc: Global, text: &mut Vec<u8>, boxes: &BoxStack) -> Result<(), AllocError>
    ensures { OnOk result (text.new.items ≡ text.old.items ++ key_text boxes.now) }
{
    let words = boxes.words();
    let size = words.len();
    push_stack(alloc, text, Form::Signatures, words, size + 1, size)
}

/// Whether words are those of a work stack, which has symbols, or of a box stack, which has signatures alone.
#[derive(Clone, Copy)]
pub(crate) enum Form {
    Symbols,
    Signatures,
}

/// What stands on top of a stack: `R`, `L`, or a signature by its words.
#[derive(Clone, Copy)]
pub(crate) enum Symbol<'a> {
    Right,
    Left,
    Signature(&'a [u64]),
}

/// Appends the text of the top so many parts of a stack, each so deep.
fn push_stack(
    alloc: Global,
    text: &mut Vec<u8>,
    form: Form,
    words: &[u64],
    most: usize,
    deep: usize,
) -> Result<(), AllocError>
    requires stack { (m : Work) × IsStack form words.now m }
    requires some { 1 ≤ most }
    ensures { (m : Work) → IsStack form words.now m → OnOk result
        (text.new.items ≡ text.old.items ++ dotted (first_parts most (map (sym_text deep) m))) }
{
    if words.is_empty() {
        return text.extend_from_slice(b"-");
    }
    let mut todo = Vec::with_capacity(alloc, ROOM)?;
    let rest = push_top(text, &mut todo, form, words, deep)?;
    push_rest(text, &mut todo, form, rest, most - 1, deep)
}

/// The same of what stands below the top, each part behind a `.`.
fn push_rest<'a>(
    text: &mut Vec<u8>,
    todo: &mut Vec<Piece<'a>>,
    form: Form,
    words: &'a [u64],
    most: usize,
    deep: usize,
) -> Result<(), AllocError>
    requires stack { (m : Work) × IsStack form words.now m }
    requires nothing { todo.old.items ≡ [] }
    ensures { (m : Work) → IsStack form words.now m → OnOk result
        (text.new.items ≡ text.old.items ++ dots (first_parts most (map (sym_text deep) m))) }
{
    let mut rest = words;
    let mut left = most;
    while !rest.is_empty() {
        text.extend_from_slice(b".")?;
        if left == 0 {
            return push_count(text, count(form, rest));
        }
        rest = push_top(text, todo, form, rest, deep)?;
        left -= 1;
    }
    Ok(())
}

/// Appends how many parts are left out.
fn push_count(text: &mut Vec<u8>, n: u64) -> Result<(), AllocError>
    ensures { OnOk result (text.new.items ≡ text.old.items ++ (codes "+" ++ decimal n)) }
{
    let mut buffer = Buffer::new();
    text.extend_from_slice(b"+")?;
    text.extend_from_slice(buffer.format(n).as_bytes())
}

/// How many parts a stack has.
fn count(form: Form, words: &[u64]) -> u64
    requires { (m : Work) × IsStack form words.now m }
    ensures { (m : Work) → IsStack form words.now m → result ≡ length m }
{
    let mut rest = words;
    let mut n = 0;
    while !rest.is_empty() {
        rest = top(form, rest).1;
        n += 1;
    }
    n
}

/// Appends the text of the top of a stack that isn't empty, and answers what stands below it.
fn push_top<'a>(
    text: &mut Vec<u8>,
    todo: &mut Vec<Piece<'a>>,
    form: Form,
    words: &'a [u64],
    deep: usize,
) -> Result<&'a [u64], AllocError>
    requires stack { (x : Sym) × (m : Work) × IsStack form words.now (x ∷ m) }
    requires nothing { todo.old.items ≡ [] }
    ensures text { (x : Sym) (m : Work) → IsStack form words.now (x ∷ m) → OnOk result
        (text.new.items ≡ text.old.items ++ sym_text deep x) }
    ensures rest { (x : Sym) (m : Work) → IsStack form words.now (x ∷ m) → IfOk result
        (λ rest. TakesTop form words.now rest.now m) }
    ensures nothing { OnOk result (todo.new.items ≡ []) }
{
    let (top, rest) = top(form, words);
    match top {
        Symbol::Right => text.extend_from_slice(b"R")?,
        Symbol::Left => text.extend_from_slice(b"L")?,
        Symbol::Signature(part) => push_sig(text, todo, part, deep)?,
    }
    Ok(rest)
}

/// The top of a stack that isn't empty, and what stands below it.
fn top(form: Form, words: &[u64]) -> (Symbol<'_>, &[u64])
    requires { (x : Sym) × (m : Work) × IsStack form words.now (x ∷ m) }
    ensures top { (x : Sym) (m : Work) → IsStack form words.now (x ∷ m) → IsTop result.0 x }
    ensures rest { (x : Sym) (m : Work) → IsStack form words.now (x ∷ m) → TakesTop form words.now result.1.now m }
{
    match form {
        Form::Symbols => top_symbol(words),
        Form::Signatures => top_signature(words),
    }
}

/// The same of a work stack.
fn top_symbol(words: &[u64]) -> (Symbol<'_>, &[u64])
    requires { (x : Sym) × (m : Work) × (words.now ≡ work_words (x ∷ m)) }
    ensures { (x : Sym) (m : Work) → words.now ≡ work_words (x ∷ m) → IsTop result.0 x × (result.1.now ≡ work_words m) }
{
    let n = words.len();
    let last = words[n - 1];
    if last == SYMBOL_R {
        return (Symbol::Right, &words[..n - 1]);
    }
    if last == SYMBOL_L {
        return (Symbol::Left, &words[..n - 1]);
    }
    let at = n - 2 - words[n - 2] as usize;
    (Symbol::Signature(&words[at..n - 2]), &words[..at])
}

/// The same of a box stack.
fn top_signature(words: &[u64]) -> (Symbol<'_>, &[u64])
    requires { (s : Sig) × (t : Boxes) × (words.now ≡ box_words (s ∷ t)) }
    ensures { (s : Sig) (t : Boxes) → words.now ≡ box_words (s ∷ t) → IsTop result.0 (S s) × (result.1.now ≡ box_words t) }
{
    let n = words.len();
    let at = n - 1 - words[n - 1] as usize;
    (Symbol::Signature(&words[at..n - 1]), &words[..at])
}

/// What is still to be written of a signature: one byte, a part of it by its words, so deep, or the second of two parts, so deep, with
/// the byte behind it.
#[derive(Clone, Copy)]
pub(crate) enum Piece<'a> {
    Mark(u8),
    Part(&'a [u64], usize),
    Second(&'a [u64], usize, u8),
}

/// Appends the text of a signature by its words, so deep. The list serves for what is put down meanwhile.
fn push_sig<'a>(
    text: &mut Vec<u8>,
    todo: &mut Vec<Piece<'a>>,
    words: &'a [u64],
    deep: usize,
) -> Result<(), AllocError>
    requires body { IsBody words.now }
    requires nothing { todo.old.items ≡ [] }
    ensures text { (s : Sig) → words.now ≡ body s → OnOk result (text.new.items ≡ text.old.items ++ sig_text deep s) }
    ensures nothing { OnOk result (todo.new.items ≡ []) }
{
    let mut hand = Some(Piece::Part(words, deep));
    while let Some(piece) = take_next(todo, hand) {
        hand = push_piece(text, todo, piece)?;
    }
    Ok(())
}

/// The piece in hand, or else the one that was put down last. What comes next is mostly in hand, and never on the list.
fn take_next<'a>(todo: &mut Vec<Piece<'a>>, hand: Option<Piece<'a>>) -> Option<Piece<'a>>
    ensures { MatchOption result ((todo.old.items ++ held hand.entry ≡ []) × (todo.new.items ≡ []))
        (λ p. todo.old.items ++ held hand.entry ≡ todo.new.items ++ p ∷ []) }
{
    match hand {
        Some(piece) => Some(piece),
        None => todo.pop(),
    }
}

/// Writes a piece, or its begin, and hands out what comes next of it, if anything does.
fn push_piece<'a>(
    text: &mut Vec<u8>,
    todo: &mut Vec<Piece<'a>>,
    piece: Piece<'a>,
) -> Result<Option<Piece<'a>>, AllocError>
    requires { IsPart piece }
    ensures { IfOk result (λ h. Writes text.old.items text.new.items todo.old.items (todo.new.items ++ held h)
        (piece_text piece.entry) (piece_work piece.entry)) }
{
    match piece {
        Piece::Mark(byte) => push_mark(text, byte),
        Piece::Part(words, deep) => push_part(text, todo, words, deep),
        Piece::Second(words, deep, close) => push_second(text, todo, words, deep, close),
    }
}

/// Writes a byte, and nothing comes behind it.
fn push_mark<'a>(text: &mut Vec<u8>, byte: u8) -> Result<Option<Piece<'a>>, AllocError>
    ensures { (before : List Piece) → IfOk result (λ h.
        Writes text.old.items text.new.items before (before ++ held h) (byte ∷ []) 1) }
{
    text.push(byte)?;
    Ok(None)
}

/// Writes what stands before the second of two parts, and puts down what stands behind it.
fn push_second<'a>(
    text: &mut Vec<u8>,
    todo: &mut Vec<Piece<'a>>,
    words: &'a [u64],
    deep: usize,
    close: u8,
) -> Result<Option<Piece<'a>>, AllocError>
    ensures { (s : Sig) → words.now ≡ body s → IfOk result (λ h.
        Writes text.old.items text.new.items todo.old.items (todo.new.items ++ held h)
        (codes "," ++ (sig_text deep s ++ close ∷ [])) (3 * length words.now + 2)) }
{
    text.push(b',')?;
    todo.push(Piece::Mark(close))?;
    Ok(Some(Piece::Part(words, deep)))
}

/// Writes the begin of a signature's text, hands out what comes next, and puts down what is to follow.
fn push_part<'a>(
    text: &mut Vec<u8>,
    todo: &mut Vec<Piece<'a>>,
    words: &'a [u64],
    deep: usize,
) -> Result<Option<Piece<'a>>, AllocError>
    ensures { (s : Sig) → words.now ≡ body s → IfOk result (λ h.
        Writes text.old.items text.new.items todo.old.items (todo.new.items ++ held h) (sig_text deep s) (3 * length words.now)) }
{
    match words {
        [] => Ok(None),
        [rest @ .., form] => push_last(text, todo, *form, rest, deep),
    }
}

/// The same by the last of its words and those before it.
fn push_last<'a>(
    text: &mut Vec<u8>,
    todo: &mut Vec<Piece<'a>>,
    form: u64,
    rest: &'a [u64],
    deep: usize,
) -> Result<Option<Piece<'a>>, AllocError>
    ensures { (s : Sig) → rest.now ++ form ∷ [] ≡ body s → IfOk result (λ h.
        Writes text.old.items text.new.items todo.old.items (todo.new.items ++ held h) (sig_text deep s) (3 * length rest.now + 3)) }
{
    if form == STAR {
        return push_mark(text, b'*');
    }
    push_form(text, todo, form, rest, deep)
}

/// The same of a signature that isn't `*`.
fn push_form<'a>(
    text: &mut Vec<u8>,
    todo: &mut Vec<Piece<'a>>,
    form: u64,
    rest: &'a [u64],
    deep: usize,
) -> Result<Option<Piece<'a>>, AllocError>
    ensures { (s : Sig) → rest.now ++ form ∷ [] ≡ body s → (form ≡ 0 → ⊥) → IfOk result (λ h.
        Writes text.old.items text.new.items todo.old.items (todo.new.items ++ held h) (sig_text deep s) (3 * length rest.now + 3)) }
{
    if deep == 0 {
        return push_mark(text, b'~');
    }
    if form == LEFT {
        return push_marked(text, b'l', rest, deep - 1);
    }
    if form == RIGHT {
        return push_marked(text, b'r', rest, deep - 1);
    }
    if form == PAIR {
        return push_two(text, todo, b'<', b'>', rest, deep - 1);
    }
    text.push(b'y')?;
    push_two(text, todo, b'(', b')', rest, deep - 1)
}

/// Writes a mark, and hands out the signature behind it.
fn push_marked<'a>(
    text: &mut Vec<u8>,
    mark: u8,
    rest: &'a [u64],
    deep: usize,
) -> Result<Option<Piece<'a>>, AllocError>
    ensures { (s : Sig) (before : List Piece) → rest.now ≡ body s → IfOk result (λ h.
        Writes text.old.items text.new.items before (before ++ held h) (mark ∷ sig_text deep s) (3 * length rest.now + 1)) }
{
    text.push(mark)?;
    Ok(Some(Piece::Part(rest, deep)))
}

/// Writes what opens two signatures, of which the second has its length behind it, puts the second down with what closes them, and hands
/// out the first.
fn push_two<'a>(
    text: &mut Vec<u8>,
    todo: &mut Vec<Piece<'a>>,
    begin: u8,
    close: u8,
    rest: &'a [u64],
    deep: usize,
) -> Result<Option<Piece<'a>>, AllocError>
    ensures { (s u : Sig) → rest.now ≡ body s ++ (body u ++ length (body u) ∷ []) → IfOk result (λ h.
        Writes text.old.items text.new.items todo.old.items (todo.new.items ++ held h)
        (begin ∷ (sig_text deep s ++ (codes "," ++ (sig_text deep u ++ close ∷ [])))) (3 * length rest.now + 3)) }
{
    let [both @ .., count] = rest else {
        return Ok(None);
    };
    if *count > both.len() as u64 {
        return Ok(None);
    }
    let (first, second) = both.split_at(both.len() - *count as usize);
    push_both(text, todo, begin, close, first, second, deep)
}

/// The same by the words of both.
fn push_both<'a>(
    text: &mut Vec<u8>,
    todo: &mut Vec<Piece<'a>>,
    begin: u8,
    close: u8,
    first: &'a [u64],
    second: &'a [u64],
    deep: usize,
) -> Result<Option<Piece<'a>>, AllocError>
    ensures { (s u : Sig) → first.now ≡ body s → second.now ≡ body u → IfOk result (λ h.
        Writes text.old.items text.new.items todo.old.items (todo.new.items ++ held h)
        (begin ∷ (sig_text deep s ++ (codes "," ++ (sig_text deep u ++ close ∷ []))))
        (3 * length first.now + 3 * length second.now + 3)) }
{
    text.push(begin)?;
    todo.push(Piece::Second(second, deep, close))?;
    Ok(Some(Piece::Part(first, deep)))
}
