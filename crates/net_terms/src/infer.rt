//! The type of a term, where it has one.
//!
//! `pcf_types` types terms as they are read, with names and places, and answers their first fault. A term that is read from a net has
//! neither, and it is only asked whether it is closed and of type `nat`.

ghost use Rattle.std.specs.Prelude.{◌≡◌, ◌↔◌, ◌∷◌, [], ◌^◌, IsTrue, Option, Some, None, IfOk, OnOk, nat_lt, slice_get, if◌then◌else◌};
ghost use Rattle.std.specs.Option.{option_map};
ghost use Rattle.pcf_values.specs.Terms.{TyTree, nat, same_type};
ghost use Rattle.pcf_values.specs.Typing.{HasType};
ghost use Rattle.pcf_values.specs.Views.{term_of, ty_of};
ghost use Rattle.net_terms.specs.Typable.{applied, context_of, fixed, function_to, if_number, if_same, paired, part_type};
ghost use Rattle.net_terms.specs.Typable.{type_of};

use pcf_values::{Side, Term, Ty};
use std::alloc::{AllocError, Global};

/// Whether a term is closed and of type `nat`.
pub(crate) fn is_program(alloc: Global, term: &Term) -> Result<bool, AllocError>
    ensures { IfOk result (λ b. IsTrue b ↔ HasType [] (term_of term.now) nat) }
{
    let mut context = Vec::new(alloc);
    let numeric = is_number(alloc, &mut context, term)?;
    Ok(numeric)
}

/// The type of a term under these binders, the nearest one last; `None` where it has none.
#[cycle(infer)]
pub(crate) fn infer(
    alloc: Global,
    context: &mut Vec<Ty>,
    term: &Term,
) -> Result<Option<Ty>, AllocError>
    ensures context { OnOk result (context.new.items ≡ context.old.items) }
    ensures ty { IfOk result (λ o. option_map ty_of o ≡ type_of (context_of context.old.items) (term_of term.now)) }
{
    match term {
        Term::Number(n) => Ok(number_type(*n)),
        Term::Var(i) => variable_type(alloc, context, *i),
        Term::Succ(a) | Term::Pred(a) => Ok(nat_if(is_number(alloc, context, a)?)),
        Term::Binary(_, a, b) => {
            Ok(nat_if(is_number(alloc, context, a)? && is_number(alloc, context, b)?))
        }
        Term::Ifz(test, then, otherwise) => {
            let test = is_number(alloc, context, test)?;
            Ok(nat_if(
                test && is_number(alloc, context, then)? && is_number(alloc, context, otherwise)?,
            ))
        }
        Term::Fun(ty, body) => infer_fun(alloc, context, ty, body),
        Term::Fix(ty, body) => infer_fix(alloc, context, ty, body),
        Term::App(f, a) => infer_app(alloc, context, f, a),
        Term::Pair(a, b) => infer_pair(alloc, context, a, b),
        Term::Proj(side, a) => Ok(part_type(*side, infer(alloc, context, a)?)),
    }
}

/// The type of the part of a pair on this side, where it is a pair.
fn part_type(side: Side, pair: Option<Ty>) -> Option<Ty>
    ensures { option_map ty_of result ≡ part_type side (option_map ty_of pair) }
{
    match pair {
        Some(Ty::Product(left, right)) => match side {
            Side::Left => Some(Box::into_inner(left)),
            Side::Right => Some(Box::into_inner(right)),
        },
        _ => None,
    }
}

/// The type of a number, which each number of the code has.
fn number_type(n: u64) -> Option<Ty>
    ensures { option_map ty_of result ≡ (if nat_lt n (2 ^ 64) then Some nat else None) }
{
    let _value = n;
    Some(Ty::Nat)
}

/// `nat` if the operands are numbers, and else no type.
fn nat_if(numbers: bool) -> Option<Ty>
    ensures { option_map ty_of result ≡ (if numbers then Some nat else None) }
{
    if numbers { Some(Ty::Nat) } else { None }
}

/// Whether a term is of type `nat`.
#[cycle(infer)]
fn is_number(alloc: Global, context: &mut Vec<Ty>, term: &Term) -> Result<bool, AllocError>
    ensures context { OnOk result (context.new.items ≡ context.old.items) }
    ensures number { IfOk result
        (λ b. (r : Option TyTree) → if_number (type_of (context_of context.old.items) (term_of term.now)) r ≡ (if b then r else None)) }
{
    match infer(alloc, context, term)? {
        Some(Ty::Nat) => Ok(true),
        _ => Ok(false),
    }
}

/// The type of a function: from its binder's type to the type of its body. The context is as before.
#[cycle(infer)]
fn infer_fun(
    alloc: Global,
    context: &mut Vec<Ty>,
    ty: &Ty,
    body: &Term,
) -> Result<Option<Ty>, AllocError>
    ensures context { OnOk result (context.new.items ≡ context.old.items) }
    ensures ty { IfOk result
        (λ o. option_map ty_of o ≡ function_to (ty_of ty.now) (type_of (ty_of ty.now ∷ context_of context.old.items) (term_of body.now))) }
{
    match infer_body(alloc, context, ty, body)? {
        Some(to) => {
            let from = Box::new(alloc, ty.copy(alloc)?)?;
            Ok(Some(Ty::Arrow(from, Box::new(alloc, to)?)))
        }
        None => Ok(None),
    }
}

/// The type of a fixed point, if its body has its binder's type. The context is as before.
#[cycle(infer)]
fn infer_fix(
    alloc: Global,
    context: &mut Vec<Ty>,
    ty: &Ty,
    body: &Term,
) -> Result<Option<Ty>, AllocError>
    ensures context { OnOk result (context.new.items ≡ context.old.items) }
    ensures ty { IfOk result
        (λ o. option_map ty_of o ≡ fixed (ty_of ty.now) (type_of (ty_of ty.now ∷ context_of context.old.items) (term_of body.now))) }
{
    match infer_body(alloc, context, ty, body)? {
        Some(to) => {
            if are_same(ty, &to) {
                Ok(Some(ty.copy(alloc)?))
            } else {
                Ok(None)
            }
        }
        None => Ok(None),
    }
}

/// The type of an application, if the argument has the type that the function takes. The context is as before.
#[cycle(infer)]
fn infer_app(
    alloc: Global,
    context: &mut Vec<Ty>,
    f: &Term,
    a: &Term,
) -> Result<Option<Ty>, AllocError>
    ensures context { OnOk result (context.new.items ≡ context.old.items) }
    ensures ty { IfOk result
        (λ o. option_map ty_of o ≡ applied (type_of (context_of context.old.items) (term_of f.now))
        (type_of (context_of context.old.items) (term_of a.now))) }
{
    match infer(alloc, context, f)? {
        Some(Ty::Arrow(from, to)) => match infer(alloc, context, a)? {
            Some(argument) => {
                if are_same(&from, &argument) {
                    Ok(Some(Box::into_inner(to)))
                } else {
                    Ok(None)
                }
            }
            None => Ok(None),
        },
        _ => Ok(None),
    }
}

/// The type of a pair, if both sides have one. The context is as before.
#[cycle(infer)]
fn infer_pair(
    alloc: Global,
    context: &mut Vec<Ty>,
    a: &Term,
    b: &Term,
) -> Result<Option<Ty>, AllocError>
    ensures context { OnOk result (context.new.items ≡ context.old.items) }
    ensures ty { IfOk result
        (λ o. option_map ty_of o ≡ paired (type_of (context_of context.old.items) (term_of a.now))
        (type_of (context_of context.old.items) (term_of b.now))) }
{
    let Some(left) = infer(alloc, context, a)? else {
        return Ok(None);
    };
    match infer(alloc, context, b)? {
        Some(right) => {
            let left = Box::new(alloc, left)?;
            Ok(Some(Ty::Product(left, Box::new(alloc, right)?)))
        }
        None => Ok(None),
    }
}

/// The type of a body in the context with its binder's type.
#[cycle(infer)]
fn infer_body(
    alloc: Global,
    context: &mut Vec<Ty>,
    ty: &Ty,
    body: &Term,
) -> Result<Option<Ty>, AllocError>
    ensures context { OnOk result (context.new.items ≡ context.old.items) }
    ensures ty { IfOk result (λ o. option_map ty_of o ≡ type_of (ty_of ty.now ∷ context_of context.old.items) (term_of body.now)) }
{
    context.push(ty.copy(alloc)?)?;
    let found = infer(alloc, context, body)?;
    drop(context.pop());
    Ok(found)
}

/// The type of variable `i`.
fn variable_type(alloc: Global, context: &[Ty], i: u32) -> Result<Option<Ty>, AllocError>
    ensures { IfOk result (λ o. option_map ty_of o ≡ slice_get (context_of context.now) i) }
{
    let count = context.len();
    let i = i as usize;
    if i < count {
        Ok(Some(context[count - 1 - i].copy(alloc)?))
    } else {
        Ok(None)
    }
}

/// Whether both types are the same.
fn are_same(a: &Ty, b: &Ty) -> bool
    ensures { result ≡ same_type (ty_of a.now) (ty_of b.now) }
{
    a.same(b)
}
