//! Terms as they are read: with names, and with their places in the text.

ghost use Rattle.std.specs.Prelude.{◌≡◌, IfOk};
ghost use Rattle.pcf_values.specs.Views.{named_of, raw_of};

use crate::{Ident, Operator, Side, Ty};
use std::alloc::{AllocError, Global};

/// A node with its place: an offset in bytes from the beginning of the text.
#[cycle(named)]
#[derive(Drop)]
pub struct Named {
    /// The place.
    pub at: u32,
    /// The node itself.
    pub raw: Raw,
}

/// A node of a term as it is read.
#[cycle(named)]
#[derive(Drop)]
pub enum Raw {
    /// A number.
    Number(u64),
    /// A variable, by its name.
    Name(Ident),
    /// `succ`, one more.
    Succ(Box<Named>),
    /// `pred`, one less, and 0 of 0.
    Pred(Box<Named>),
    /// An operator between two terms.
    Binary(Operator, Box<Named>, Box<Named>),
    /// `ifz`: the condition, the part for 0, and the part for all else.
    Ifz(Box<Named>, Box<Named>, Box<Named>),
    /// A function: the name that it binds, its type, and the body.
    Fun(Ident, Ty, Box<Named>),
    /// A fixed point: the name that it binds, its type, and the body.
    Fix(Ident, Ty, Box<Named>),
    /// A function applied to an argument.
    App(Box<Named>, Box<Named>),
    /// A pair.
    Pair(Box<Named>, Box<Named>),
    /// `fst` or `snd`: the part of a pair on a side.
    Proj(Side, Box<Named>),
}

impl Named {
    /// An equal term, with equal places.
    ///
    /// # Errors
    ///
    /// It runs out of memory.
    #[cycle(copy)]
    #[tactic(auto, using(crate::proofs::Heights::raw_height))]
    pub fn copy(&self, alloc: Global) -> Result<Named, AllocError>
        ensures { IfOk result (λ t. named_of t ≡ named_of self.now) }
    {
        Ok(Named {
            at: self.at,
            raw: self.raw.copy(alloc)?,
        })
    }
}

impl Raw {
    /// An equal node.
    ///
    /// # Errors
    ///
    /// It runs out of memory.
    #[cycle(copy)]
    pub fn copy(&self, alloc: Global) -> Result<Raw, AllocError>
        ensures { IfOk result (λ t. raw_of t ≡ raw_of self.now) }
    {
        match self {
            Raw::Number(n) => Ok(Raw::Number(*n)),
            Raw::Name(x) => Ok(Raw::Name(x.copy(alloc)?)),
            Raw::Succ(a) => Ok(Raw::Succ(copy_box(alloc, a)?)),
            Raw::Pred(a) => Ok(Raw::Pred(copy_box(alloc, a)?)),
            Raw::Binary(operator, a, b) => {
                let (a, b) = copy_both(alloc, a, b)?;
                Ok(Raw::Binary(*operator, a, b))
            }
            Raw::Ifz(c, p, q) => {
                let (p, q) = copy_both(alloc, p, q)?;
                Ok(Raw::Ifz(copy_box(alloc, c)?, p, q))
            }
            Raw::Fun(x, ty, body) => {
                let body = copy_box(alloc, body)?;
                let x = x.copy(alloc)?;
                Ok(Raw::Fun(x, ty.copy(alloc)?, body))
            }
            Raw::Fix(x, ty, body) => {
                let body = copy_box(alloc, body)?;
                let x = x.copy(alloc)?;
                Ok(Raw::Fix(x, ty.copy(alloc)?, body))
            }
            Raw::App(f, a) => {
                let (f, a) = copy_both(alloc, f, a)?;
                Ok(Raw::App(f, a))
            }
            Raw::Pair(a, b) => {
                let (a, b) = copy_both(alloc, a, b)?;
                Ok(Raw::Pair(a, b))
            }
            Raw::Proj(side, a) => Ok(Raw::Proj(*side, copy_box(alloc, a)?)),
        }
    }
}

/// An equal term in a box of its own.
#[cycle(copy)]
fn copy_box(alloc: Global, term: &Named) -> Result<Box<Named>, AllocError>
    ensures { IfOk result (λ t. named_of t.value ≡ named_of term.now) }
{
    Ok(Box::new(alloc, term.copy(alloc)?)?)
}

/// Equal terms in boxes of their own.
#[cycle(copy)]
fn copy_both(alloc: Global, a: &Named, b: &Named) -> Result<(Box<Named>, Box<Named>), AllocError>
    ensures { IfOk result (λ p. (named_of p.0.value ≡ named_of a.now) × (named_of p.1.value ≡ named_of b.now)) }
{
    let a = copy_box(alloc, a)?;
    let b = copy_box(alloc, b)?;
    Ok((a, b))
}
