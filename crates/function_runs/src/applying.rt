//! A term that is applied to zeros.

ghost use Rattle.std.specs.Prelude.{◌≡◌, ◌↔◌, ◌≤◌, ℕ, IsTrue, IfOk, replicate};
ghost use Rattle.pcf_values.specs.Terms.{nat, num, app};
ghost use Rattle.pcf_values.specs.Views.{term_of, ty_of};
ghost use Rattle.open_net_laws.specs.Applied.{applied, numeric};
ghost use Rattle.function_runs.specs.Functions.{Takes};

use open_net_laws::law_applied;
use pcf_values::{Term, Ty, Typed};
use std::alloc::{AllocError, Global};

/// The most numbers that a function may take.
pub const MOST_ARGUMENTS: usize = 1000;

/// Whether a type is that of a function of so many numbers, which aren't too many.
pub(crate) fn fits(ty: &Ty, arguments: usize) -> bool
    ensures { IsTrue result ↔ Takes arguments (ty_of ty.now) }
{
    arguments <= MOST_ARGUMENTS && takes(ty, arguments)
}

/// Whether a type is that of a function of so many numbers.
fn takes(ty: &Ty, arguments: usize) -> bool
    ensures { IsTrue result ↔ (ty_of ty.now ≡ numeric arguments) }
{
    match ty {
        Ty::Nat => arguments == 0,
        Ty::Arrow(from, to) => arguments > 0 && is_nat(from) && takes(to, arguments - 1),
        Ty::Product(_, _) => false,
    }
}

/// How many numbers a function of this type takes, where it takes numbers alone, and not too many.
pub(crate) fn arguments_of(ty: &Ty) -> usize
    ensures { (n : ℕ) → Takes n (ty_of ty.now) → result ≡ n }
{
    arrows(ty, MOST_ARGUMENTS)
}

/// How many arrows a type has along its right, as far as these are at most so many.
fn arrows(ty: &Ty, most: usize) -> usize
    ensures count { (n : ℕ) → n ≤ most → ty_of ty.now ≡ numeric n → result ≡ n }
    ensures few { result ≤ most }
{
    match ty {
        Ty::Arrow(_, to) => {
            if most == 0 {
                return 0;
            }
            1 + arrows(to, most - 1)
        }
        _ => 0,
    }
}

/// Whether a type is `nat`.
fn is_nat(ty: &Ty) -> bool
    ensures { IsTrue result ↔ (ty_of ty.now ≡ nat) }
{
    match ty {
        Ty::Nat => true,
        _ => false,
    }
}

/// A function of so many numbers, applied to zeros.
pub(crate) fn at_zeros(alloc: Global, program: Typed, arguments: u32) -> Result<Typed, AllocError>
    requires { program.1 ≡ numeric arguments }
    ensures { IfOk result (λ p. p ≡ (applied program.0 (replicate arguments 0), nat)) }
{
    law_applied();
    let term = program.into_term();
    let applied = apply_zeros(alloc, term, arguments)?;
    Ok(Typed::of(applied, Ty::Nat))
}

/// A term at so many zeros.
fn apply_zeros(alloc: Global, term: Term, n: u32) -> Result<Term, AllocError>
    ensures { IfOk result (λ t. term_of t ≡ applied (term_of term) (replicate n 0)) }
{
    if n == 0 {
        return Ok(term);
    }
    let applied = at_zero(alloc, term)?;
    apply_zeros(alloc, applied, n - 1)
}

/// A term at zero.
fn at_zero(alloc: Global, term: Term) -> Result<Term, AllocError>
    ensures { IfOk result (λ t. term_of t ≡ app (term_of term) (num 0)) }
{
    let function = Box::new(alloc, term)?;
    let argument = Box::new(alloc, Term::Number(0))?;
    Ok(Term::App(function, argument))
}
