//! The translation of a term, in one walk over it.
//!
//! `translate` is the definition's `cps`, clause by clause. In place of the definition's map it keeps for each binder how many binders
//! of the translated term stand around its own, so that an index is the difference to the depth at hand, and a variable is looked up
//! in constant time. Each form has a function of its own, so that no frame is large.

ghost use Rattle.std.specs.Prelude.{◌≡◌, ◌+◌, ◌*◌, ◌<◌, ◌^◌, suc, ◌∷◌, [], length, reverse, slice_get, Some};
ghost use Rattle.std.specs.Prelude.{IfOk};
ghost use Rattle.pcf_values.specs.Terms.{nat, var, binary, ifz, lam, fix, app, height};
ghost use Rattle.pcf_values.specs.Typing.{HasType};
ghost use Rattle.pcf_values.specs.Views.{term_of, ty_of};
ghost use Rattle.cbv_terms.specs.Translation.{translated, under};
ghost use Rattle.cbv_terms.specs.Accepted.{HasTranslation};
ghost use Rattle.cbv_terms.specs.Views.{IsReady, Makes, MakesFunction, context_of, map_of, unary_of};

use crate::binder::Binder;
use crate::forms::Unary;
use crate::known::{Known, value_type};
use crate::made::{
    Made, close_app, close_binary, close_fix, close_fun, close_ifz, close_program, close_unary,
    hand_on,
};
use pcf_values::{Operator, Term, Ty};
use std::alloc::{AllocError, Global};

/// The program that stands for a program of type `nat`.
pub(crate) fn translate_program(alloc: Global, term: &Term) -> Result<Term, AllocError>
    requires typed { HasType [] (term_of term.now) nat }
    requires taken { HasTranslation (term_of term.now) }
    requires room { 5 * height (term_of term.now) < 2 ^ 32 }
    ensures { IfOk result (λ t. term_of t ≡ translated (term_of term.now)) }
{
    let mut binders = Vec::new(alloc);
    let made = translate(alloc, &mut binders, 0, term)?;
    close_program(alloc, made.term)
}

/// The translation of a term under these binders, where so many binders of the translated term stand around it.
#[cycle(translate)]
fn translate<'p>(
    alloc: Global,
    binders: &mut Vec<Binder<'p>>,
    depth: u32,
    term: &'p Term,
) -> Result<Made<'p>, AllocError>
    requires ready { IsReady binders.old.items depth (context_of binders.old.items) (term_of term.now) }
    requires room { depth + 5 * height (term_of term.now) < 2 ^ 32 }
    ensures { IfOk result (Makes binders.old.items binders.new.items (context_of binders.old.items) (map_of depth binders.old.items)
        (term_of term.now)) }
{
    match term {
        Term::Number(n) => hand_on(alloc, Term::Number(*n), Known::Nat),
        Term::Var(i) => translate_variable(alloc, binders, depth, *i),
        Term::Succ(a) => translate_unary(alloc, binders, depth, Unary::Succ, a),
        Term::Pred(a) => translate_unary(alloc, binders, depth, Unary::Pred, a),
        Term::Binary(operator, a, b) => translate_binary(alloc, binders, depth, *operator, a, b),
        Term::Ifz(c, p, q) => translate_ifz(alloc, binders, depth, c, p, q),
        Term::Fun(ty, body) => translate_fun(alloc, binders, depth, ty, body),
        Term::Fix(ty, function) => translate_fix(alloc, binders, depth, ty, function),
        Term::App(f, a) => translate_app(alloc, binders, depth, f, a),
        Term::Pair(_, _) | Term::Proj(_, _) => unreachable!(),
    }
}

/// `fun k. k x`, of a variable.
fn translate_variable<'p>(
    alloc: Global,
    binders: &Vec<Binder<'p>>,
    depth: u32,
    i: u32,
) -> Result<Made<'p>, AllocError>
    requires ready { IsReady binders.now.items depth (context_of binders.now.items) (var i) }
    ensures { IfOk result (Makes binders.now.items binders.now.items (context_of binders.now.items) (map_of depth binders.now.items)
        (var i)) }
{
    let binder = binder_of(binders, i);
    hand_on(
        alloc,
        Term::Var(depth - binder.level),
        Known::Written(binder.ty),
    )
}

/// The binder of variable `i`.
fn binder_of<'p>(binders: &Vec<Binder<'p>>, i: u32) -> Binder<'p>
    requires { i < length binders.now.items }
    ensures { slice_get (reverse binders.now.items) i ≡ Some result }
{
    binders[binders.len() - 1 - i as usize]
}

/// `succ` or `pred` of an operand.
#[cycle(translate)]
fn translate_unary<'p>(
    alloc: Global,
    binders: &mut Vec<Binder<'p>>,
    depth: u32,
    form: Unary,
    a: &'p Term,
) -> Result<Made<'p>, AllocError>
    requires ready { IsReady binders.old.items depth (context_of binders.old.items) (unary_of form (term_of a.now)) }
    requires room { depth + 5 * height (unary_of form (term_of a.now)) < 2 ^ 32 }
    ensures { IfOk result (Makes binders.old.items binders.new.items (context_of binders.old.items) (map_of depth binders.old.items)
        (unary_of form (term_of a.now))) }
{
    let a = translate(alloc, binders, depth + 1, a)?;
    close_unary(alloc, form, a.term)
}

/// An operator with its operands.
#[cycle(translate)]
fn translate_binary<'p>(
    alloc: Global,
    binders: &mut Vec<Binder<'p>>,
    depth: u32,
    operator: Operator,
    a: &'p Term,
    b: &'p Term,
) -> Result<Made<'p>, AllocError>
    requires ready { IsReady binders.old.items depth (context_of binders.old.items) (binary operator (term_of a.now) (term_of b.now)) }
    requires room { depth + 5 * height (binary operator (term_of a.now) (term_of b.now)) < 2 ^ 32 }
    ensures { IfOk result (Makes binders.old.items binders.new.items (context_of binders.old.items) (map_of depth binders.old.items)
        (binary operator (term_of a.now) (term_of b.now))) }
{
    let a = translate(alloc, binders, depth + 1, a)?;
    let b = translate(alloc, binders, depth + 2, b)?;
    close_binary(alloc, operator, a.term, b.term)
}

/// A choice between two parts.
#[cycle(translate)]
fn translate_ifz<'p>(
    alloc: Global,
    binders: &mut Vec<Binder<'p>>,
    depth: u32,
    c: &'p Term,
    p: &'p Term,
    q: &'p Term,
) -> Result<Made<'p>, AllocError>
    requires ready { IsReady binders.old.items depth (context_of binders.old.items) (ifz (term_of c.now) (term_of p.now) (term_of q.now)) }
    requires room { depth + 5 * height (ifz (term_of c.now) (term_of p.now) (term_of q.now)) < 2 ^ 32 }
    ensures { IfOk result (Makes binders.old.items binders.new.items (context_of binders.old.items) (map_of depth binders.old.items)
        (ifz (term_of c.now) (term_of p.now) (term_of q.now))) }
{
    let c = translate(alloc, binders, depth + 1, c)?;
    let p = translate(alloc, binders, depth + 2, p)?;
    let q = translate(alloc, binders, depth + 2, q)?;
    close_ifz(alloc, c.term, p.term, q.term)
}

/// A function: `fun k. k (fun x:A'. cps(body))`.
#[cycle(translate)]
fn translate_fun<'p>(
    alloc: Global,
    binders: &mut Vec<Binder<'p>>,
    depth: u32,
    ty: &'p Ty,
    body: &'p Term,
) -> Result<Made<'p>, AllocError>
    requires ready { IsReady binders.old.items depth (context_of binders.old.items) (lam (ty_of ty.now) (term_of body.now)) }
    requires room { depth + 5 * height (lam (ty_of ty.now) (term_of body.now)) < 2 ^ 32 }
    ensures { IfOk result (Makes binders.old.items binders.new.items (context_of binders.old.items) (map_of depth binders.old.items)
        (lam (ty_of ty.now) (term_of body.now))) }
{
    let body = translate_body(alloc, binders, depth + 1, ty, body)?;
    close_fun(alloc, ty, body)
}

/// A recursive function: `fun k. k (fix f:A'. fun x:B'. cps(body))`.
#[cycle(translate)]
fn translate_fix<'p>(
    alloc: Global,
    binders: &mut Vec<Binder<'p>>,
    depth: u32,
    ty: &'p Ty,
    function: &'p Term,
) -> Result<Made<'p>, AllocError>
    requires ready { IsReady binders.old.items depth (context_of binders.old.items) (fix (ty_of ty.now) (term_of function.now)) }
    requires room { depth + 5 * height (fix (ty_of ty.now) (term_of function.now)) < 2 ^ 32 }
    ensures { IfOk result (Makes binders.old.items binders.new.items (context_of binders.old.items) (map_of depth binders.old.items)
        (fix (ty_of ty.now) (term_of function.now))) }
{
    match function {
        Term::Fun(argument, body) => {
            let function = translate_function(alloc, binders, depth + 1, ty, argument, body)?;
            close_fix(alloc, ty, function)
        }
        _ => unreachable!(),
    }
}

/// `fun x:B'. cps(body)`, of the body of a recursive function of this type that takes this argument.
#[cycle(translate)]
fn translate_function<'p>(
    alloc: Global,
    binders: &mut Vec<Binder<'p>>,
    depth: u32,
    ty: &'p Ty,
    argument: &'p Ty,
    body: &'p Term,
) -> Result<Box<Term>, AllocError>
    requires ready { IsReady binders.old.items depth (ty_of argument.now ∷ ty_of ty.now ∷
        context_of binders.old.items) (term_of body.now) }
    requires room { suc (suc depth) + 5 * height (term_of body.now) < 2 ^ 32 }
    ensures { IfOk result (λ t. MakesFunction binders.old.items binders.new.items depth (ty_of ty.now) (ty_of argument.now)
        (term_of body.now) t.value) }
{
    binders.push(Binder { ty, level: depth })?;
    let body = translate_body(alloc, binders, depth + 1, argument, body)?;
    binders.pop();
    let argument = value_type(alloc, argument)?;
    Ok(Box::new(alloc, Term::Fun(argument, body.term))?)
}

/// The translation of the body of a binder with this type.
#[cycle(translate)]
fn translate_body<'p>(
    alloc: Global,
    binders: &mut Vec<Binder<'p>>,
    depth: u32,
    ty: &'p Ty,
    body: &'p Term,
) -> Result<Made<'p>, AllocError>
    requires ready { IsReady binders.old.items depth (ty_of ty.now ∷ context_of binders.old.items) (term_of body.now) }
    requires room { suc depth + 5 * height (term_of body.now) < 2 ^ 32 }
    ensures { IfOk result (Makes binders.old.items binders.new.items (ty_of ty.now ∷ context_of binders.old.items)
        (under (map_of depth binders.old.items)) (term_of body.now)) }
{
    binders.push(Binder { ty, level: depth })?;
    let made = translate(alloc, binders, depth + 1, body)?;
    binders.pop();
    Ok(made)
}

/// An application.
#[cycle(translate)]
fn translate_app<'p>(
    alloc: Global,
    binders: &mut Vec<Binder<'p>>,
    depth: u32,
    f: &'p Term,
    a: &'p Term,
) -> Result<Made<'p>, AllocError>
    requires ready { IsReady binders.old.items depth (context_of binders.old.items) (app (term_of f.now) (term_of a.now)) }
    requires room { depth + 5 * height (app (term_of f.now) (term_of a.now)) < 2 ^ 32 }
    ensures { IfOk result (Makes binders.old.items binders.new.items (context_of binders.old.items) (map_of depth binders.old.items)
        (app (term_of f.now) (term_of a.now))) }
{
    let f = translate(alloc, binders, depth + 1, f)?;
    let a = translate(alloc, binders, depth + 2, a)?;
    close_app(alloc, f, a.term)
}
