//! Translations of terms, and the pieces that they are made of.

ghost use Rattle.std.specs.Prelude.{◌≡◌, IfOk};
ghost use Rattle.pcf_values.specs.Terms.{nat, arrow, TyTree, var, binary, ifz, lam, fix, app};
ghost use Rattle.pcf_values.specs.Views.{ty_of, term_of};
ghost use Rattle.cbv_terms.specs.Translation.{value_type, continuation_type, argument_type, result_type};
ghost use Rattle.cbv_terms.specs.Views.{known_of, unary_of};

use crate::forms::Unary;
use crate::known::{Known, value_type};
use pcf_values::{Operator, Term, Ty};
use std::alloc::{AllocError, Global};

/// The translation of a term, and the term's type.
#[derive(Drop)]
pub(crate) struct Made<'p> {
    pub(crate) term: Box<Term>,
    pub(crate) ty: Known<'p>,
}

/// `fun k. body`, where k takes a result of this type.
fn close<'p>(alloc: Global, ty: Known<'p>, body: Box<Term>) -> Result<Made<'p>, AllocError>
    ensures term { IfOk result (λ made. term_of made.term.value ≡ lam (continuation_type (known_of ty.entry)) (term_of body.value)) }
    ensures typed { IfOk result (λ made. known_of made.ty ≡ known_of ty.entry) }
{
    let takes = ty.continuation_type(alloc)?;
    let term = Box::new(alloc, Term::Fun(takes, body))?;
    Ok(Made { term, ty })
}

/// `k what`, where k is the variable of this index.
fn hand(alloc: Global, k: u32, what: Term) -> Result<Box<Term>, AllocError>
    ensures { IfOk result (λ t. term_of t.value ≡ app (var k) (term_of what)) }
{
    let what = Box::new(alloc, what)?;
    let k = Box::new(alloc, Term::Var(k))?;
    Ok(Box::new(alloc, Term::App(k, what))?)
}

/// `f x`, where x is the variable of this index.
fn give(alloc: Global, f: Box<Term>, x: u32) -> Result<Box<Term>, AllocError>
    ensures { IfOk result (λ t. term_of t.value ≡ app (term_of f.value) (var x)) }
{
    let x = Box::new(alloc, Term::Var(x))?;
    Ok(Box::new(alloc, Term::App(f, x))?)
}

/// `part (fun x:ty. body)`: what is to be done with the part's result.
fn pass(alloc: Global, part: Box<Term>, ty: Ty, body: Box<Term>) -> Result<Box<Term>, AllocError>
    ensures { IfOk result (λ t. term_of t.value ≡ app (term_of part.value) (lam (ty_of ty) (term_of body.value))) }
{
    let rest = Box::new(alloc, Term::Fun(ty, body))?;
    Ok(Box::new(alloc, Term::App(part, rest))?)
}

/// `fun k. k what`, of a term that stands for a result of this type.
pub(crate) fn hand_on<'p>(alloc: Global, what: Term, ty: Known<'p>) -> Result<Made<'p>, AllocError>
    ensures term { IfOk result (λ made. term_of made.term.value ≡ lam (continuation_type (known_of ty.entry))
        (app (var 0) (term_of what))) }
    ensures typed { IfOk result (λ made. known_of made.ty ≡ known_of ty.entry) }
{
    let body = hand(alloc, 0, what)?;
    close(alloc, ty, body)
}

/// `fun k. k (fun x:A'. body)`.
pub(crate) fn close_fun<'p>(
    alloc: Global,
    from: &'p Ty,
    body: Made<'p>,
) -> Result<Made<'p>, AllocError>
    ensures term { IfOk result (λ made. term_of made.term.value ≡ lam
        (continuation_type (arrow (ty_of from.now) (known_of body.entry.ty)))
        (app (var 0) (lam (value_type (ty_of from.now)) (term_of body.entry.term.value)))) }
    ensures typed { IfOk result (λ made. known_of made.ty ≡ arrow (ty_of from.now) (known_of body.entry.ty)) }
{
    let to = Box::new(alloc, body.ty)?;
    let takes = value_type(alloc, from)?;
    hand_on(
        alloc,
        Term::Fun(takes, body.term),
        Known::Function(from, to),
    )
}

/// `fun k. k (fix f:A'. function)`.
pub(crate) fn close_fix<'p>(
    alloc: Global,
    ty: &'p Ty,
    function: Box<Term>,
) -> Result<Made<'p>, AllocError>
    ensures term { IfOk result (λ made. term_of made.term.value ≡ lam (continuation_type (ty_of ty.now))
        (app (var 0) (fix (value_type (ty_of ty.now)) (term_of function.value)))) }
    ensures typed { IfOk result (λ made. known_of made.ty ≡ ty_of ty.now) }
{
    let all = value_type(alloc, ty)?;
    hand_on(alloc, Term::Fix(all, function), Known::Written(ty))
}

/// `fun k. a (fun m:nat. k (succ m))`, and with `pred`.
pub(crate) fn close_unary<'p>(
    alloc: Global,
    form: Unary,
    a: Box<Term>,
) -> Result<Made<'p>, AllocError>
    ensures term { IfOk result (λ made. term_of made.term.value ≡ lam (continuation_type nat)
        (app (term_of a.value) (lam nat (app (var 1) (unary_of form (var 0)))))) }
    ensures typed { IfOk result (λ made. known_of made.ty ≡ nat) }
{
    let m = Box::new(alloc, Term::Var(0))?;
    let done = hand(alloc, 1, form.of(m))?;
    let body = pass(alloc, a, Ty::Nat, done)?;
    close(alloc, Known::Nat, body)
}

/// `k (m + n)`, where n, m and k are the variables of indexes 0 to 2; and with `-` and `*`.
fn operate(alloc: Global, operator: Operator) -> Result<Box<Term>, AllocError>
    ensures { IfOk result (λ t. term_of t.value ≡ app (var 2) (binary operator (var 1) (var 0))) }
{
    let m = Box::new(alloc, Term::Var(1))?;
    let n = Box::new(alloc, Term::Var(0))?;
    hand(alloc, 2, Term::Binary(operator, m, n))
}

/// `fun k. a (fun m:nat. b (fun n:nat. k (m + n)))`, and with `-` and `*`.
pub(crate) fn close_binary<'p>(
    alloc: Global,
    operator: Operator,
    a: Box<Term>,
    b: Box<Term>,
) -> Result<Made<'p>, AllocError>
    ensures term { IfOk result (λ made. term_of made.term.value ≡ lam (continuation_type nat)
        (app (term_of a.value) (lam nat (app (term_of b.value) (lam nat (app (var 2) (binary operator (var 1) (var 0)))))))) }
    ensures typed { IfOk result (λ made. known_of made.ty ≡ nat) }
{
    let done = operate(alloc, operator)?;
    let second = pass(alloc, b, Ty::Nat, done)?;
    let first = pass(alloc, a, Ty::Nat, second)?;
    close(alloc, Known::Nat, first)
}

/// `ifz m then p k else q k`, where m and k are the variables of indexes 0 and 1.
fn choose(alloc: Global, p: Box<Term>, q: Box<Term>) -> Result<Box<Term>, AllocError>
    ensures { IfOk result (λ t. term_of t.value ≡ ifz (var 0) (app (term_of p.value) (var 1)) (app (term_of q.value) (var 1))) }
{
    let p = give(alloc, p, 1)?;
    let q = give(alloc, q, 1)?;
    let m = Box::new(alloc, Term::Var(0))?;
    Ok(Box::new(alloc, Term::Ifz(m, p, q))?)
}

/// `fun k. c (fun m:nat. ifz m then p k else q k)`.
pub(crate) fn close_ifz<'p>(
    alloc: Global,
    c: Box<Term>,
    p: Box<Term>,
    q: Box<Term>,
) -> Result<Made<'p>, AllocError>
    ensures term { IfOk result (λ made. term_of made.term.value ≡ lam (continuation_type nat)
        (app (term_of c.value) (lam nat (ifz (var 0) (app (term_of p.value) (var 1)) (app (term_of q.value) (var 1)))))) }
    ensures typed { IfOk result (λ made. known_of made.ty ≡ nat) }
{
    let chosen = choose(alloc, p, q)?;
    let body = pass(alloc, c, Ty::Nat, chosen)?;
    close(alloc, Known::Nat, body)
}

/// `g x k`, where x, g and k are the variables of indexes 0 to 2.
fn call(alloc: Global) -> Result<Box<Term>, AllocError>
    ensures { IfOk result (λ t. term_of t.value ≡ app (app (var 1) (var 0)) (var 2)) }
{
    let applied = hand(alloc, 1, Term::Var(0))?;
    give(alloc, applied, 2)
}

/// `a (fun x:A'. g x k)`, where x, g and k are the variables of indexes 0 to 2.
fn call_with(alloc: Global, a: Box<Term>, from: &Ty) -> Result<Box<Term>, AllocError>
    ensures { IfOk result (λ t. term_of t.value ≡ app (term_of a.value)
        (lam (value_type (ty_of from.now)) (app (app (var 1) (var 0)) (var 2)))) }
{
    let called = call(alloc)?;
    let from = value_type(alloc, from)?;
    pass(alloc, a, from, called)
}

/// `fun k. f (fun g:(A -> B)'. a (fun x:A'. g x k))`, where f is of type A -> B.
pub(crate) fn close_app<'p>(
    alloc: Global,
    f: Made<'p>,
    a: Box<Term>,
) -> Result<Made<'p>, AllocError>
    requires { (a b : TyTree) × (known_of f.ty ≡ arrow a b) }
    ensures term { IfOk result (λ made. term_of made.term.value ≡ lam (continuation_type (result_type (known_of f.entry.ty)))
        (app (term_of f.entry.term.value) (lam (value_type (known_of f.entry.ty))
        (app (term_of a.value) (lam (value_type (argument_type (known_of f.entry.ty))) (app (app (var 1) (var 0)) (var 2))))))) }
    ensures typed { IfOk result (λ made. known_of made.ty ≡ result_type (known_of f.entry.ty)) }
{
    let whole = f.ty.value_type(alloc)?;
    let (from, to) = f.ty.into_function();
    let called = call_with(alloc, a, from)?;
    let body = pass(alloc, f.term, whole, called)?;
    close(alloc, to, body)
}

/// `whole (fun v:nat. v)`, of the translation of a whole program.
pub(crate) fn close_program(alloc: Global, whole: Box<Term>) -> Result<Term, AllocError>
    ensures { IfOk result (λ t. term_of t ≡ app (term_of whole.value) (lam nat (var 0))) }
{
    let v = Box::new(alloc, Term::Var(0))?;
    let last = Box::new(alloc, Term::Fun(Ty::Nat, v))?;
    Ok(Term::App(whole, last))
}
