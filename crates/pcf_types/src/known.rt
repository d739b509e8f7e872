//! Types that are made of parts of the program's text.

ghost use Rattle.std.specs.Prelude.{◌≡◌, ◌↔◌, ◌≢◌, IsTrue, IfOk, MatchOption};
ghost use Rattle.pcf_values.specs.Terms.{arrow, product, TyTree};
ghost use Rattle.pcf_values.specs.Views.{ty_of};
ghost use Rattle.pcf_types.specs.Views.{known_of};

use pcf_values::Ty;
use std::alloc::{AllocError, Global};

/// A type of a part of the program. What the program's text holds of it is borrowed, so that it is never copied.
#[derive(Drop)]
pub(crate) enum Known<'p> {
    Nat,
    Written(&'p Ty),
    Function(&'p Ty, Box<Known<'p>>),
    Pair(Box<Known<'p>>, Box<Known<'p>>),
}

impl<'p> Known<'p> {
    /// Whether it is this type. Nothing is copied.
    pub(crate) fn is(&self, ty: &Ty) -> bool
        ensures { IsTrue result ↔ (known_of self.now ≡ ty_of ty.now) }
    {
        match (self, ty) {
            (Known::Nat, Ty::Nat) => true,
            (Known::Written(seen), ty) => seen.same(ty),
            (Known::Function(from, to), Ty::Arrow(a, b)) => from.same(a) && to.is(b),
            (Known::Pair(left, right), Ty::Product(a, b)) => left.is(a) && right.is(b),
            _ => false,
        }
    }

    /// What a function of this type takes and gives, or none of another type.
    pub(crate) fn into_function(self) -> Option<(&'p Ty, Known<'p>)>
        ensures { MatchOption result ((a b : TyTree) → known_of self.entry ≢ arrow a b)
            (λ f. known_of self.entry ≡ arrow (ty_of f.0.now) (known_of f.1)) }
    {
        match self {
            Known::Written(Ty::Arrow(from, to)) => Some((from, Known::Written(to))),
            Known::Function(from, to) => Some((from, Box::into_inner(to))),
            _ => None,
        }
    }

    /// The types of both parts of a pair of this type, or none of another type.
    pub(crate) fn into_pair(self) -> Option<(Known<'p>, Known<'p>)>
        ensures { MatchOption result ((a b : TyTree) → known_of self.entry ≢ product a b)
            (λ p. known_of self.entry ≡ product (known_of p.0) (known_of p.1)) }
    {
        match self {
            Known::Written(Ty::Product(left, right)) => Some((
                Known::Written(left),
                Known::Written(right),
            )),
            Known::Pair(left, right) => Some((Box::into_inner(left), Box::into_inner(right))),
            _ => None,
        }
    }

    /// The type by itself, with copies of what was borrowed.
    #[cycle(to_ty)]
    pub(crate) fn to_ty(&self, alloc: Global) -> Result<Ty, AllocError>
        ensures { IfOk result (λ t. ty_of t ≡ known_of self.now) }
    {
        match self {
            Known::Nat => Ok(Ty::Nat),
            Known::Written(ty) => ty.copy(alloc),
            Known::Function(from, to) => {
                let from = Box::new(alloc, from.copy(alloc)?)?;
                Ok(Ty::Arrow(from, to.boxed_ty(alloc)?))
            }
            Known::Pair(left, right) => {
                let left = left.boxed_ty(alloc)?;
                Ok(Ty::Product(left, right.boxed_ty(alloc)?))
            }
        }
    }

    /// The same in a box.
    #[cycle(to_ty)]
    fn boxed_ty(&self, alloc: Global) -> Result<Box<Ty>, AllocError>
        ensures { IfOk result (λ t. ty_of t.value ≡ known_of self.now) }
    {
        Ok(Box::new(alloc, self.to_ty(alloc)?)?)
    }
}
