//! Terms with variables by index.

ghost use Rattle.std.specs.Prelude.{◌≡◌, IfOk};
ghost use Rattle.pcf_values.specs.Views.{term_of};

use crate::{Operator, Side, Ty};
use std::alloc::{AllocError, Global};

/// A term. `Var(0)` is the nearest binder's variable.
#[derive(Drop)]
pub enum Term {
    /// A number.
    Number(u64),
    /// A variable: how many binders stand between it and its own.
    Var(u32),
    /// `succ`, one more.
    Succ(Box<Term>),
    /// `pred`, one less, and 0 of 0.
    Pred(Box<Term>),
    /// An operator between two terms.
    Binary(Operator, Box<Term>, Box<Term>),
    /// `ifz`: the condition, the part for 0, and the part for all else.
    Ifz(Box<Term>, Box<Term>, Box<Term>),
    /// A function: the type of what it binds, and the body.
    Fun(Ty, Box<Term>),
    /// A fixed point: the type of what it binds, and the body.
    Fix(Ty, Box<Term>),
    /// A function applied to an argument.
    App(Box<Term>, Box<Term>),
    /// A pair.
    Pair(Box<Term>, Box<Term>),
    /// `fst` or `snd`: the part of a pair on a side.
    Proj(Side, Box<Term>),
}

impl Term {
    /// An equal term.
    ///
    /// # Errors
    ///
    /// It runs out of memory.
    #[cycle(copy)]
    pub fn copy(&self, alloc: Global) -> Result<Term, AllocError>
        ensures { IfOk result (λ t. term_of t ≡ term_of self.now) }
    {
        match self {
            Term::Number(n) => Ok(Term::Number(*n)),
            Term::Var(i) => Ok(Term::Var(*i)),
            Term::Succ(a) => Ok(Term::Succ(copy_box(alloc, a)?)),
            Term::Pred(a) => Ok(Term::Pred(copy_box(alloc, a)?)),
            Term::Binary(operator, a, b) => {
                let (a, b) = copy_both(alloc, a, b)?;
                Ok(Term::Binary(*operator, a, b))
            }
            Term::Ifz(c, p, q) => {
                let (p, q) = copy_both(alloc, p, q)?;
                Ok(Term::Ifz(copy_box(alloc, c)?, p, q))
            }
            Term::Fun(ty, body) => {
                let body = copy_box(alloc, body)?;
                Ok(Term::Fun(ty.copy(alloc)?, body))
            }
            Term::Fix(ty, body) => {
                let body = copy_box(alloc, body)?;
                Ok(Term::Fix(ty.copy(alloc)?, body))
            }
            Term::App(f, a) => {
                let (f, a) = copy_both(alloc, f, a)?;
                Ok(Term::App(f, a))
            }
            Term::Pair(a, b) => {
                let (a, b) = copy_both(alloc, a, b)?;
                Ok(Term::Pair(a, b))
            }
            Term::Proj(side, a) => Ok(Term::Proj(*side, copy_box(alloc, a)?)),
        }
    }
}

/// An equal term in a box of its own.
#[cycle(copy)]
fn copy_box(alloc: Global, term: &Term) -> Result<Box<Term>, AllocError>
    ensures { IfOk result (λ t. term_of t.value ≡ term_of term.now) }
{
    Ok(Box::new(alloc, term.copy(alloc)?)?)
}

/// Equal terms in boxes of their own.
#[cycle(copy)]
fn copy_both(alloc: Global, a: &Term, b: &Term) -> Result<(Box<Term>, Box<Term>), AllocError>
    ensures { IfOk result (λ p. (term_of p.0.value ≡ term_of a.now) × (term_of p.1.value ≡ term_of b.now)) }
{
    let a = copy_box(alloc, a)?;
    let b = copy_box(alloc, b)?;
    Ok((a, b))
}
