//! How types and terms are printed.

ghost use Rattle.std.specs.Prelude.{◌≡◌, ◌++◌, codes, OnOk, IfOk, decimal};
ghost use Rattle.pcf_reader.specs.Printed.{fitted, ty_level, ty_text, op_text, op_level, right_level, level, term_text};
ghost use Rattle.pcf_values.specs.Views.{ty_of, named_of};

use crate::lexer::is_sum;
use itoa::Buffer;
use pcf_values::{Ident, Named, Operator, Raw, Side, Ty};
use std::alloc::{AllocError, Global};

/// The spelling of a type: `nat`, `A -> B` or `A * B`, with parentheses exactly where the grammar needs them.
///
/// # Errors
///
/// It runs out of memory.
pub fn print_ty(alloc: Global, ty: &Ty) -> Result<Vec<u8>, AllocError>
    ensures { IfOk result (λ v. v.items ≡ ty_text (ty_of ty.now)) }
{
    let mut out = Vec::new(alloc);
    push_ty(&mut out, ty)?;
    Ok(out)
}

/// The spelling of a term on one line, with single spaces, and parentheses exactly where the grammar needs them.
///
/// # Errors
///
/// It runs out of memory.
pub fn print_term(alloc: Global, term: &Named) -> Result<Vec<u8>, AllocError>
    ensures { IfOk result (λ v. v.items ≡ term_text (named_of term.now)) }
{
    let mut out = Vec::new(alloc);
    push_term(&mut out, term)?;
    Ok(out)
}

/// The level of a type: 0 for `nat`, 1 for a product and 2 for an arrow.
fn ty_level(ty: &Ty) -> u8
    ensures { result ≡ ty_level (ty_of ty.now) }
{
    match ty {
        Ty::Nat => 0,
        Ty::Product(_, _) => 1,
        Ty::Arrow(_, _) => 2,
    }
}

/// Puts the text of a type behind what is there.
#[cycle(print_types)]
fn push_ty(out: &mut Vec<u8>, ty: &Ty) -> Result<(), AllocError>
    ensures { OnOk result (out.new.items ≡ out.old.items ++ ty_text (ty_of ty.now)) }
{
    match ty {
        Ty::Nat => out.extend_from_slice(b"nat"),
        Ty::Arrow(from, to) => {
            push_fitted_ty(out, 1, from)?;
            out.extend_from_slice(b" -> ")?;
            push_ty(out, to)
        }
        Ty::Product(left, right) => {
            push_fitted_ty(out, 0, left)?;
            out.extend_from_slice(b" * ")?;
            push_fitted_ty(out, 1, right)
        }
    }
}

/// A part of a type, in parentheses unless its level is at most this one.
#[cycle(print_types)]
fn push_fitted_ty(out: &mut Vec<u8>, most: u8, ty: &Ty) -> Result<(), AllocError>
    ensures { OnOk result (out.new.items ≡ out.old.items ++ fitted most (ty_level (ty_of ty.now)) (ty_text (ty_of ty.now))) }
{
    if ty_level(ty) <= most {
        push_ty(out, ty)
    } else {
        out.push(b'(')?;
        push_ty(out, ty)?;
        out.push(b')')?;
        Ok(())
    }
}

/// An operator between two blanks.
fn op_text(operator: Operator) -> &'static [u8]
    ensures { result.now ≡ op_text operator }
{
    match operator {
        Operator::Plus => b" + ",
        Operator::Minus => b" - ",
        Operator::Times => b" * ",
    }
}

/// The level of an operator's form, which is also the highest level of its left operand.
fn op_level(operator: Operator) -> u8
    ensures { result ≡ op_level operator }
{
    if is_sum(operator) { 3 } else { 2 }
}

/// The highest level of an operator's right operand.
fn right_level(operator: Operator) -> u8
    ensures { result ≡ right_level operator }
{
    if is_sum(operator) { 2 } else { 1 }
}

/// The level of the grammar that gives a form.
fn level_of(term: &Named) -> u8
    ensures { result ≡ level (named_of term.now) }
{
    match &term.raw {
        Raw::Number(_)
        | Raw::Name(_)
        | Raw::Succ(_)
        | Raw::Pred(_)
        | Raw::Proj(_, _)
        | Raw::Pair(_, _) => 0,
        Raw::App(_, _) => 1,
        Raw::Binary(operator, _, _) => op_level(*operator),
        Raw::Ifz(_, _, _) | Raw::Fun(_, _, _) | Raw::Fix(_, _, _) => 4,
    }
}

/// Puts a number behind what is there, in decimal digits.
fn push_number(out: &mut Vec<u8>, number: u64) -> Result<(), AllocError>
    ensures { OnOk result (out.new.items ≡ out.old.items ++ decimal number) }
{
    let mut buffer = Buffer::new();
    out.extend_from_slice(buffer.format(number).as_bytes())
}

/// A binder's word, its name and its type, up to its body.
fn push_head(out: &mut Vec<u8>, word: &[u8], name: &Ident, ty: &Ty) -> Result<(), AllocError>
    ensures { OnOk result (out.new.items ≡ out.old.items ++ word.now ++ name.now ++ codes ":" ++ ty_text (ty_of ty.now) ++ codes ". ") }
{
    out.extend_from_slice(word)?;
    out.extend_from_slice(name.as_str().as_bytes())?;
    out.extend_from_slice(b":")?;
    push_ty(out, ty)?;
    out.extend_from_slice(b". ")
}

/// Puts the text of a term behind what is there.
#[cycle(print_terms)]
fn push_term(out: &mut Vec<u8>, term: &Named) -> Result<(), AllocError>
    ensures { OnOk result (out.new.items ≡ out.old.items ++ term_text (named_of term.now)) }
{
    match &term.raw {
        Raw::Number(n) => push_number(out, *n),
        Raw::Name(x) => out.extend_from_slice(x.as_str().as_bytes()),
        Raw::Succ(a) => push_fitted(out, b"succ ", 0, a),
        Raw::Pred(a) => push_fitted(out, b"pred ", 0, a),
        Raw::Proj(Side::Left, a) => push_fitted(out, b"fst ", 0, a),
        Raw::Proj(Side::Right, a) => push_fitted(out, b"snd ", 0, a),
        Raw::Binary(operator, a, b) => push_operated(out, *operator, a, b),
        Raw::App(f, a) => push_applied(out, f, a),
        Raw::Ifz(c, p, q) => push_choice(out, c, p, q),
        Raw::Fun(x, ty, body) => push_binding(out, b"fun ", x, ty, body),
        Raw::Fix(x, ty, body) => push_binding(out, b"fix ", x, ty, body),
        Raw::Pair(a, b) => push_pair(out, a, b),
    }
}

/// A function and its argument.
#[cycle(print_terms)]
fn push_applied(out: &mut Vec<u8>, function: &Named, argument: &Named) -> Result<(), AllocError>
    ensures { OnOk result (out.new.items ≡ out.old.items ++
        fitted 1 (level (named_of function.now)) (term_text (named_of function.now)) ++ codes " " ++
        fitted 0 (level (named_of argument.now)) (term_text (named_of argument.now))) }
{
    push_fitted(out, b"", 1, function)?;
    push_fitted(out, b" ", 0, argument)
}

/// Two operands with their operator between them.
#[cycle(print_terms)]
fn push_operated(
    out: &mut Vec<u8>,
    operator: Operator,
    left: &Named,
    right: &Named,
) -> Result<(), AllocError>
    ensures { OnOk result (out.new.items ≡ out.old.items ++
        fitted (op_level operator) (level (named_of left.now)) (term_text (named_of left.now)) ++ op_text operator ++
        fitted (right_level operator) (level (named_of right.now)) (term_text (named_of right.now))) }
{
    push_fitted(out, b"", op_level(operator), left)?;
    push_fitted(out, op_text(operator), right_level(operator), right)
}

/// Puts the text of an `ifz` behind what is there.
#[cycle(print_terms)]
fn push_choice(out: &mut Vec<u8>, test: &Named, yes: &Named, no: &Named) -> Result<(), AllocError>
    ensures { OnOk result (out.new.items ≡ out.old.items ++ codes "ifz " ++ term_text (named_of test.now) ++ codes " then " ++
        term_text (named_of yes.now) ++ codes " else " ++ term_text (named_of no.now)) }
{
    push_after(out, b"ifz ", test)?;
    push_after(out, b" then ", yes)?;
    push_after(out, b" else ", no)
}

/// Puts the text of a pair behind what is there, in parentheses.
#[cycle(print_terms)]
fn push_pair(out: &mut Vec<u8>, left: &Named, right: &Named) -> Result<(), AllocError>
    ensures { OnOk result (out.new.items ≡ out.old.items ++ codes "(" ++ term_text (named_of left.now) ++ codes ", " ++
        term_text (named_of right.now) ++ codes ")") }
{
    push_after(out, b"(", left)?;
    push_after(out, b", ", right)?;
    out.extend_from_slice(b")")
}

/// A binder's word, its name, its type and its body.
#[cycle(print_terms)]
fn push_binding(
    out: &mut Vec<u8>,
    word: &[u8],
    name: &Ident,
    ty: &Ty,
    body: &Named,
) -> Result<(), AllocError>
    ensures { OnOk result (out.new.items ≡ out.old.items ++ word.now ++ name.now ++ codes ":" ++ ty_text (ty_of ty.now) ++ codes ". " ++
        term_text (named_of body.now)) }
{
    push_head(out, word, name, ty)?;
    push_term(out, body)
}

/// What stands before a part of a term, and the part, in parentheses unless its level is at most this one.
#[cycle(print_terms)]
fn push_fitted(out: &mut Vec<u8>, before: &[u8], most: u8, term: &Named) -> Result<(), AllocError>
    ensures { OnOk result (out.new.items ≡ out.old.items ++ before.now ++
        fitted most (level (named_of term.now)) (term_text (named_of term.now))) }
{
    out.extend_from_slice(before)?;
    if level_of(term) <= most {
        push_term(out, term)
    } else {
        out.push(b'(')?;
        push_term(out, term)?;
        out.push(b')')?;
        Ok(())
    }
}

/// What stands before a part of a term, and the part.
#[cycle(print_terms)]
fn push_after(out: &mut Vec<u8>, before: &[u8], term: &Named) -> Result<(), AllocError>
    ensures { OnOk result (out.new.items ≡ out.old.items ++ before.now ++ term_text (named_of term.now)) }
{
    out.extend_from_slice(before)?;
    push_term(out, term)
}
