//! The term and the type of a tree, or its first fault, from left to right.

ghost use Rattle.std.specs.Prelude.{◌≡◌, ◌≢◌, suc, ◌<◌, ◌+◌, ◌^◌, length, Ok, Err, IfOk, IfErr};
ghost use Rattle.pcf_values.specs.Views.{term_of, ty_of, named_of};
ghost use Rattle.pcf_values.specs.Named.{named_height};
ghost use Rattle.pcf_types.specs.Checking.{variable, nearest};
ghost use Rattle.pcf_types.specs.Numbers.{NumbersFit};
ghost use Rattle.pcf_types.specs.Views.{scope_of, known_of, Shallow, type_in, number_in, numbers_in, function_in, parts_in, of_type_in};
ghost use Rattle.pcf_types.specs.Views.{ifz_in, fun_in, fix_in, app_in, pair_in};
ghost use Rattle.pcf_types.specs.declared.fault.TypeFault.TheVariants.{NoMemory};

use crate::TypeFault;
use crate::judged::{Function, Judged, Paired};
use crate::known::Known;
use crate::scope::Scope;
use pcf_values::{Ident, Named, Raw, Term, Ty};
use std::alloc::Global;

/// The variable that the name at this place stands for.
fn variable<'p>(
    alloc: Global,
    scope: &Scope<'_, 'p>,
    name: &Ident,
    at: u32,
) -> Result<Judged<'p>, TypeFault>
    requires { length (scope_of scope.now) < 2 ^ 32 }
    ensures ok { IfOk result (λ j. variable at (nearest name.now (scope_of scope.now)) ≡ Ok (term_of j.term.value, known_of j.ty)) }
    ensures fault { IfErr result (λ f. f ≢ NoMemory → variable at (nearest name.now (scope_of scope.now)) ≡ Err f) }
{
    match scope.nearest(name) {
        Some((index, ty)) => Judged::of(alloc, Term::Var(index), Known::Written(ty)),
        None => Err(TypeFault::Unbound(at)),
    }
}

/// The tree's term and type, or its first fault.
#[cycle(infer)]
pub(crate) fn infer<'p>(
    alloc: Global,
    scope: &Scope<'_, 'p>,
    tree: &'p Named,
) -> Result<Judged<'p>, TypeFault>
    requires { Shallow scope.now tree.now }
    ensures ok { IfOk result (λ j. type_in scope.now tree.now ≡ Ok (term_of j.term.value, known_of j.ty)) }
    ensures fault { IfErr result (λ f. f ≢ NoMemory → type_in scope.now tree.now ≡ Err f) }
    ensures fit { IfOk result (λ j. NumbersFit (named_of tree.now)) }
{
    match &tree.raw {
        Raw::Number(n) => Judged::nat(alloc, Term::Number(*n)),
        Raw::Name(name) => variable(alloc, scope, name, tree.at),
        Raw::Succ(a) => Judged::nat(alloc, Term::Succ(number(alloc, scope, a)?)),
        Raw::Pred(a) => Judged::nat(alloc, Term::Pred(number(alloc, scope, a)?)),
        Raw::Binary(operator, a, b) => {
            let (a, b) = numbers(alloc, scope, a, b)?;
            Judged::nat(alloc, Term::Binary(*operator, a, b))
        }
        Raw::Ifz(c, p, q) => choice(alloc, scope, c, p, q),
        Raw::Fun(name, ty, body) => function_of(alloc, scope, name, ty, body),
        Raw::Fix(name, ty, body) => fixed_point(alloc, scope, name, ty, body),
        Raw::App(f, a) => application(alloc, scope, f, a),
        Raw::Pair(a, b) => pair_of(alloc, scope, a, b),
        Raw::Proj(side, a) => {
            let pair = paired(alloc, scope, a)?;
            pair.part(alloc, *side)
        }
    }
}

/// The term of a part, which has to be of type `nat`.
#[cycle(infer)]
#[tactic(auto, using(crate::proofs::SameTypes::number_same))]
fn number(alloc: Global, scope: &Scope<'_, '_>, tree: &Named) -> Result<Box<Term>, TypeFault>
    requires { Shallow scope.now tree.now }
    ensures ok { IfOk result (λ m. number_in scope.now tree.now ≡ Ok (term_of m.value)) }
    ensures fault { IfErr result (λ f. f ≢ NoMemory → number_in scope.now tree.now ≡ Err f) }
    ensures fit { IfOk result (λ m. NumbersFit (named_of tree.now)) }
{
    of_type(alloc, scope, tree, &Ty::Nat, TypeFault::NatWanted(tree.at))
}

/// The terms of two such parts, the first one's fault first.
#[cycle(infer)]
fn numbers(
    alloc: Global,
    scope: &Scope<'_, '_>,
    a: &Named,
    b: &Named,
) -> Result<(Box<Term>, Box<Term>), TypeFault>
    requires first { Shallow scope.now a.now }
    requires second { Shallow scope.now b.now }
    ensures ok { IfOk result (λ p. numbers_in scope.now a.now b.now ≡ Ok (term_of p.0.value, term_of p.1.value)) }
    ensures fault { IfErr result (λ f. f ≢ NoMemory → numbers_in scope.now a.now b.now ≡ Err f) }
    ensures fit { IfOk result (λ p. NumbersFit (named_of a.now) × NumbersFit (named_of b.now)) }
{
    let left = number(alloc, scope, a)?;
    let right = number(alloc, scope, b)?;
    Ok((left, right))
}

/// The term of a part, which has to be of a function's type, with what it takes and gives.
#[cycle(infer)]
#[tactic(auto, using(crate::proofs::Places::place))]
fn function<'p>(
    alloc: Global,
    scope: &Scope<'_, 'p>,
    tree: &'p Named,
) -> Result<Function<'p>, TypeFault>
    requires { Shallow scope.now tree.now }
    ensures ok { IfOk result (λ p. function_in scope.now tree.now ≡ Ok (term_of p.term.value, ty_of p.from.now, known_of p.to)) }
    ensures fault { IfErr result (λ f. f ≢ NoMemory → function_in scope.now tree.now ≡ Err f) }
    ensures fit { IfOk result (λ p. NumbersFit (named_of tree.now)) }
{
    let found = infer(alloc, scope, tree)?;
    match found.ty.into_function() {
        Some((from, to)) => Ok(Function {
            term: found.term,
            from,
            to,
        }),
        None => Err(TypeFault::FunctionWanted(tree.at)),
    }
}

/// The term of a part, which has to be of a pair's type, with the types of the pair's parts.
#[cycle(infer)]
#[tactic(auto, using(crate::proofs::Places::place))]
fn paired<'p>(
    alloc: Global,
    scope: &Scope<'_, 'p>,
    tree: &'p Named,
) -> Result<Paired<'p>, TypeFault>
    requires { Shallow scope.now tree.now }
    ensures ok { IfOk result (λ p. parts_in scope.now tree.now ≡ Ok (term_of p.term.value, known_of p.left, known_of p.right)) }
    ensures fault { IfErr result (λ f. f ≢ NoMemory → parts_in scope.now tree.now ≡ Err f) }
    ensures fit { IfOk result (λ p. NumbersFit (named_of tree.now)) }
{
    let found = infer(alloc, scope, tree)?;
    match found.ty.into_pair() {
        Some((left, right)) => Ok(Paired {
            term: found.term,
            left,
            right,
        }),
        None => Err(TypeFault::PairWanted(tree.at)),
    }
}

/// The term of a part, which has to be of this type, or else the fault.
#[cycle(infer)]
fn of_type(
    alloc: Global,
    scope: &Scope<'_, '_>,
    tree: &Named,
    ty: &Ty,
    fault: TypeFault,
) -> Result<Box<Term>, TypeFault>
    requires { Shallow scope.now tree.now }
    ensures ok { IfOk result (λ m. of_type_in (ty_of ty.now) fault scope.now tree.now ≡ Ok (term_of m.value)) }
    ensures fault { IfErr result (λ f. f ≢ NoMemory → of_type_in (ty_of ty.now) fault scope.now tree.now ≡ Err f) }
    ensures fit { IfOk result (λ m. NumbersFit (named_of tree.now)) }
{
    infer(alloc, scope, tree)?.into_type(ty, fault)
}

/// The choice by this condition between these parts.
#[cycle(infer)]
fn choice<'p>(
    alloc: Global,
    scope: &Scope<'_, 'p>,
    c: &Named,
    p: &Named,
    q: &Named,
) -> Result<Judged<'p>, TypeFault>
    requires first { Shallow scope.now c.now }
    requires second { Shallow scope.now p.now }
    requires third { Shallow scope.now q.now }
    ensures ok { IfOk result (λ j. ifz_in scope.now c.now p.now q.now ≡ Ok (term_of j.term.value, known_of j.ty)) }
    ensures fault { IfErr result (λ f. f ≢ NoMemory → ifz_in scope.now c.now p.now q.now ≡ Err f) }
    ensures fit { IfOk result (λ j. NumbersFit (named_of c.now) × NumbersFit (named_of p.now) × NumbersFit (named_of q.now)) }
{
    let c = number(alloc, scope, c)?;
    let (p, q) = numbers(alloc, scope, p, q)?;
    Judged::nat(alloc, Term::Ifz(c, p, q))
}

/// The function of this binder and body.
#[cycle(infer)]
fn function_of<'p>(
    alloc: Global,
    scope: &Scope<'_, 'p>,
    name: &'p Ident,
    ty: &'p Ty,
    body: &'p Named,
) -> Result<Judged<'p>, TypeFault>
    requires { length (scope_of scope.now) + suc (named_height (named_of body.now)) < 2 ^ 32 }
    ensures ok { IfOk result (λ j. fun_in scope.now name.now ty.now body.now ≡ Ok (term_of j.term.value, known_of j.ty)) }
    ensures fault { IfErr result (λ f. f ≢ NoMemory → fun_in scope.now name.now ty.now body.now ≡ Err f) }
    ensures fit { IfOk result (λ j. NumbersFit (named_of body.now)) }
{
    let body = infer(alloc, &Scope::Under(name, ty, scope), body)?;
    let to = Box::new(alloc, body.ty)?;
    let from = ty.copy(alloc)?;
    Ok(Judged::of(alloc, Term::Fun(from, body.term), Known::Function(ty, to))?)
}

/// The fixed point of this binder and body.
#[cycle(infer)]
#[tactic(auto, using(crate::proofs::Places::place))]
fn fixed_point<'p>(
    alloc: Global,
    scope: &Scope<'_, 'p>,
    name: &'p Ident,
    ty: &'p Ty,
    body: &'p Named,
) -> Result<Judged<'p>, TypeFault>
    requires { length (scope_of scope.now) + suc (named_height (named_of body.now)) < 2 ^ 32 }
    ensures ok { IfOk result (λ j. fix_in scope.now name.now ty.now body.now ≡ Ok (term_of j.term.value, known_of j.ty)) }
    ensures fault { IfErr result (λ f. f ≢ NoMemory → fix_in scope.now name.now ty.now body.now ≡ Err f) }
    ensures fit { IfOk result (λ j. NumbersFit (named_of body.now)) }
{
    let inner = Scope::Under(name, ty, scope);
    let body = of_type(alloc, &inner, body, ty, TypeFault::FixMismatch(body.at))?;
    let all = ty.copy(alloc)?;
    Ok(Judged::of(alloc, Term::Fix(all, body), Known::Written(ty))?)
}

/// The application of this function to this argument.
#[cycle(infer)]
#[tactic(auto, using(crate::proofs::Places::place))]
fn application<'p>(
    alloc: Global,
    scope: &Scope<'_, 'p>,
    f: &'p Named,
    a: &'p Named,
) -> Result<Judged<'p>, TypeFault>
    requires first { Shallow scope.now f.now }
    requires second { Shallow scope.now a.now }
    ensures ok { IfOk result (λ j. app_in scope.now f.now a.now ≡ Ok (term_of j.term.value, known_of j.ty)) }
    ensures fault { IfErr result (λ e. e ≢ NoMemory → app_in scope.now f.now a.now ≡ Err e) }
    ensures fit { IfOk result (λ j. NumbersFit (named_of f.now) × NumbersFit (named_of a.now)) }
{
    let f = function(alloc, scope, f)?;
    let a = of_type(alloc, scope, a, f.from, TypeFault::ArgumentMismatch(a.at))?;
    Judged::of(alloc, Term::App(f.term, a), f.to)
}

/// The pair of these parts.
#[cycle(infer)]
fn pair_of<'p>(
    alloc: Global,
    scope: &Scope<'_, 'p>,
    a: &'p Named,
    b: &'p Named,
) -> Result<Judged<'p>, TypeFault>
    requires first { Shallow scope.now a.now }
    requires second { Shallow scope.now b.now }
    ensures ok { IfOk result (λ j. pair_in scope.now a.now b.now ≡ Ok (term_of j.term.value, known_of j.ty)) }
    ensures fault { IfErr result (λ f. f ≢ NoMemory → pair_in scope.now a.now b.now ≡ Err f) }
    ensures fit { IfOk result (λ j. NumbersFit (named_of a.now) × NumbersFit (named_of b.now)) }
{
    let a = infer(alloc, scope, a)?;
    let b = infer(alloc, scope, b)?;
    let left = Box::new(alloc, a.ty)?;
    let right = Box::new(alloc, b.ty)?;
    Judged::of(alloc, Term::Pair(a.term, b.term), Known::Pair(left, right))
}
