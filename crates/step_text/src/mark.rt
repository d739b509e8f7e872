//! The part of a term that is rewritten next, and what stands before it.

ghost use Rattle.std.specs.Prelude.{◌≡◌, ◌++◌, [], IfOk, OnOk, Some, codes};
ghost use Rattle.std.specs.Option.{option_map};
ghost use Rattle.pcf_values.specs.Named.{the_part, word_at, apply_at};
ghost use Rattle.pcf_values.specs.Views.{named_of};
ghost use Rattle.pcf_reader.specs.Printed.{fitted, op_text, op_level, right_level, level, term_text, word_text};
ghost use Rattle.term_steps.specs.Spelled.{on_spelled};
ghost use Rattle.term_steps.specs.Names.{named_spelled};
ghost use Rattle.term_steps.specs.Redex.{behind, inside, redex};

use pcf_reader::print_term;
use pcf_values::{Named, Operator, Raw, Side};
use std::alloc::{AllocError, Global};
use term_steps::spelled;

/// The level of an operator's form, which is also the highest level of its left operand.
fn op_level(operator: Operator) -> u8
    ensures { result ≡ op_level operator }
{
    match operator {
        Operator::Plus | Operator::Minus => 3,
        Operator::Times => 2,
    }
}

/// The highest level of an operator's right operand.
fn right_level(operator: Operator) -> u8
    ensures { result ≡ right_level operator }
{
    match operator {
        Operator::Plus | Operator::Minus => 2,
        Operator::Times => 1,
    }
}

/// An operator between two blanks.
fn op_text(operator: Operator) -> &'static [u8]
    ensures { result.now ≡ op_text operator }
{
    match operator {
        Operator::Plus => b" + ",
        Operator::Minus => b" - ",
        Operator::Times => b" * ",
    }
}

/// The level of the grammar that gives a form.
fn level_of(term: &Named) -> u8
    ensures { result ≡ level (named_of term.now) }
{
    match &term.raw {
        Raw::Number(_)
        | Raw::Name(_)
        | Raw::Succ(_)
        | Raw::Pred(_)
        | Raw::Proj(_, _)
        | Raw::Pair(_, _) => 0,
        Raw::App(_, _) => 1,
        Raw::Binary(operator, _, _) => op_level(*operator),
        Raw::Ifz(_, _, _) | Raw::Fun(_, _, _) | Raw::Fix(_, _, _) => 4,
    }
}

/// The part that is rewritten next, or none where there is no step. What stands before it is put behind what is there.
///
/// # Errors
///
/// It runs out of memory.
#[cycle(leads)]
pub(crate) fn lead<'a>(
    alloc: Global,
    out: &mut Vec<u8>,
    term: &'a Named,
) -> Result<Option<&'a Named>, AllocError>
    ensures { IfOk result (λ o. option_map (λ p. (out.new.items, named_of p.now)) o ≡ behind out.old.items (redex (named_of term.now))) }
{
    match &term.raw {
        Raw::Number(_) | Raw::Name(_) | Raw::Fun(_, _, _) | Raw::Pair(_, _) => Ok(None),
        Raw::Fix(_, _, _) => Ok(Some(term)),
        Raw::Succ(a) => match spelled(term) {
            Some(_) => Ok(None),
            None => lead_operand(alloc, out, term, b"succ ", a),
        },
        Raw::Pred(a) => lead_operand(alloc, out, term, b"pred ", a),
        Raw::Ifz(c, _, _) => lead_test(alloc, out, term, c),
        Raw::Proj(side, a) => lead_part(alloc, out, term, *side, a),
        Raw::App(f, a) => lead_function(alloc, out, term, f, a),
        Raw::Binary(operator, a, b) => lead_binary(alloc, out, term, *operator, a, b),
    }
}

/// The word for a part of a pair, and the blank behind it.
fn part_text(side: Side) -> &'static [u8]
    ensures { result.now ≡ word_text (the_part side) }
{
    match side {
        Side::Left => b"fst ",
        Side::Right => b"snd ",
    }
}

/// The part of a term that is rewritten next, which stands in parentheses unless its level is at most this one.
#[cycle(leads)]
fn lead_fitted<'a>(
    alloc: Global,
    out: &mut Vec<u8>,
    most: u8,
    term: &'a Named,
) -> Result<Option<&'a Named>, AllocError>
    ensures { IfOk result (λ o. option_map (λ p. (out.new.items, named_of p.now)) o
        ≡ behind out.old.items (inside most (level (named_of term.now)) (redex (named_of term.now)))) }
{
    if level_of(term) <= most {
        lead(alloc, out, term)
    } else {
        lead_behind(alloc, out, b"(", term)
    }
}

/// The part of a term that is rewritten next, which stands behind this text.
#[cycle(leads)]
fn lead_behind<'a>(
    alloc: Global,
    out: &mut Vec<u8>,
    before: &[u8],
    term: &'a Named,
) -> Result<Option<&'a Named>, AllocError>
    ensures { IfOk result (λ o. option_map (λ p. (out.new.items, named_of p.now)) o
        ≡ behind out.old.items (behind before.now (redex (named_of term.now)))) }
{
    out.extend_from_slice(before)?;
    lead(alloc, out, term)
}

/// The part of a term that is rewritten next, which stands behind this text, in parentheses unless its level is at most this one.
#[cycle(leads)]
fn lead_within<'a>(
    alloc: Global,
    out: &mut Vec<u8>,
    before: &[u8],
    most: u8,
    term: &'a Named,
) -> Result<Option<&'a Named>, AllocError>
    ensures { IfOk result (λ o. option_map (λ p. (out.new.items, named_of p.now)) o
        ≡ behind out.old.items (behind before.now (inside most (level (named_of term.now)) (redex (named_of term.now))))) }
{
    out.extend_from_slice(before)?;
    lead_fitted(alloc, out, most, term)
}

/// The part of `succ` or `pred` that is rewritten next: the whole, where its operand spells a value.
#[cycle(leads)]
fn lead_operand<'a>(
    alloc: Global,
    out: &mut Vec<u8>,
    whole: &'a Named,
    word: &[u8],
    a: &'a Named,
) -> Result<Option<&'a Named>, AllocError>
    ensures { IfOk result (λ o. option_map (λ p. (out.new.items, named_of p.now)) o ≡ behind out.old.items
        (on_spelled (named_spelled (named_of a.now)) (λ v. Some ([], named_of whole.now))
        (behind word.now (inside 0 (level (named_of a.now)) (redex (named_of a.now)))))) }
{
    match spelled(a) {
        Some(_) => Ok(Some(whole)),
        None => lead_within(alloc, out, word, 0, a),
    }
}

/// The part of a test that is rewritten next: the whole, where its condition spells a value.
#[cycle(leads)]
fn lead_test<'a>(
    alloc: Global,
    out: &mut Vec<u8>,
    whole: &'a Named,
    c: &'a Named,
) -> Result<Option<&'a Named>, AllocError>
    ensures { IfOk result (λ o. option_map (λ p. (out.new.items, named_of p.now)) o ≡ behind out.old.items
        (on_spelled (named_spelled (named_of c.now)) (λ v. Some ([], named_of whole.now))
        (behind (codes "ifz ") (redex (named_of c.now))))) }
{
    match spelled(c) {
        Some(_) => Ok(Some(whole)),
        None => lead_behind(alloc, out, b"ifz ", c),
    }
}

/// The part of `fst` or `snd` that is rewritten next: the whole, where a pair is there.
#[cycle(leads)]
fn lead_part<'a>(
    alloc: Global,
    out: &mut Vec<u8>,
    whole: &'a Named,
    side: Side,
    a: &'a Named,
) -> Result<Option<&'a Named>, AllocError>
    requires { named_of whole.now ≡ word_at whole.now.at (the_part side) (named_of a.now) }
    ensures { IfOk result (λ o. option_map (λ p. (out.new.items, named_of p.now)) o ≡ behind out.old.items (redex (named_of whole.now))) }
{
    match &a.raw {
        Raw::Pair(_, _) => Ok(Some(whole)),
        _ => lead_within(alloc, out, part_text(side), 0, a),
    }
}

/// The part of an application that is rewritten next: the whole, where its function is written out.
#[cycle(leads)]
fn lead_function<'a>(
    alloc: Global,
    out: &mut Vec<u8>,
    whole: &'a Named,
    f: &'a Named,
    a: &Named,
) -> Result<Option<&'a Named>, AllocError>
    requires { named_of whole.now ≡ apply_at whole.now.at (named_of f.now) (named_of a.now) }
    ensures { IfOk result (λ o. option_map (λ p. (out.new.items, named_of p.now)) o ≡ behind out.old.items (redex (named_of whole.now))) }
{
    match &f.raw {
        Raw::Fun(_, _, _) => Ok(Some(whole)),
        _ => lead_fitted(alloc, out, 1, f),
    }
}

/// The part of an operation that is rewritten next: of its left operand, then of its right one, then the whole.
#[cycle(leads)]
fn lead_binary<'a>(
    alloc: Global,
    out: &mut Vec<u8>,
    whole: &'a Named,
    operator: Operator,
    a: &'a Named,
    b: &'a Named,
) -> Result<Option<&'a Named>, AllocError>
    ensures { IfOk result (λ o. option_map (λ p. (out.new.items, named_of p.now)) o ≡ behind out.old.items
        (on_spelled (named_spelled (named_of a.now))
        (λ v. on_spelled (named_spelled (named_of b.now)) (λ w. Some ([], named_of whole.now))
        (behind (fitted (op_level operator) (level (named_of a.now)) (term_text (named_of a.now)) ++ op_text operator)
        (inside (right_level operator) (level (named_of b.now)) (redex (named_of b.now)))))
        (inside (op_level operator) (level (named_of a.now)) (redex (named_of a.now))))) }
{
    match spelled(a) {
        None => lead_fitted(alloc, out, op_level(operator), a),
        Some(_) => lead_right(alloc, out, whole, operator, a, b),
    }
}

/// The part of an operation that is rewritten next, whose left operand spells a value.
#[cycle(leads)]
fn lead_right<'a>(
    alloc: Global,
    out: &mut Vec<u8>,
    whole: &'a Named,
    operator: Operator,
    a: &Named,
    b: &'a Named,
) -> Result<Option<&'a Named>, AllocError>
    ensures { IfOk result (λ o. option_map (λ p. (out.new.items, named_of p.now)) o ≡ behind out.old.items
        (on_spelled (named_spelled (named_of b.now)) (λ w. Some ([], named_of whole.now))
        (behind (fitted (op_level operator) (level (named_of a.now)) (term_text (named_of a.now)) ++ op_text operator)
        (inside (right_level operator) (level (named_of b.now)) (redex (named_of b.now)))))) }
{
    match spelled(b) {
        Some(_) => Ok(Some(whole)),
        None => lead_over(alloc, out, operator, a, b),
    }
}

/// The part of a right operand that is rewritten next, behind the left one.
#[cycle(leads)]
fn lead_over<'a>(
    alloc: Global,
    out: &mut Vec<u8>,
    operator: Operator,
    a: &Named,
    b: &'a Named,
) -> Result<Option<&'a Named>, AllocError>
    ensures { IfOk result (λ o. option_map (λ p. (out.new.items, named_of p.now)) o ≡ behind out.old.items
        (behind (fitted (op_level operator) (level (named_of a.now)) (term_text (named_of a.now)) ++ op_text operator)
        (inside (right_level operator) (level (named_of b.now)) (redex (named_of b.now))))) }
{
    let left = left_text(alloc, operator, a)?;
    lead_within(alloc, out, &left, right_level(operator), b)
}

/// A left operand with its operator.
fn left_text(alloc: Global, operator: Operator, a: &Named) -> Result<Vec<u8>, AllocError>
    ensures { IfOk result (λ v. v.items ≡
        fitted (op_level operator) (level (named_of a.now)) (term_text (named_of a.now)) ++ op_text operator) }
{
    let text = print_term(alloc, a)?;
    let mut out = Vec::new(alloc);
    push_fitted(&mut out, op_level(operator), level_of(a), &text)?;
    out.extend_from_slice(op_text(operator))?;
    Ok(out)
}

/// Puts a text on a level behind what is there, in parentheses unless its level is at most this one.
fn push_fitted(out: &mut Vec<u8>, most: u8, level: u8, text: &[u8]) -> Result<(), AllocError>
    ensures { OnOk result (out.new.items ≡ out.old.items ++ fitted most level text.now) }
{
    if level <= most {
        out.extend_from_slice(text)
    } else {
        out.extend_from_slice(b"(")?;
        out.extend_from_slice(text)?;
        out.extend_from_slice(b")")
    }
}
