//! Types of programs.

ghost use Rattle.std.specs.Prelude.{◌≡◌, ◌↔◌, IfOk, IsTrue};
ghost use Rattle.pcf_values.specs.Views.{ty_of};

use std::alloc::{AllocError, Global};

/// A type: of numbers, of functions, or of pairs.
#[derive(Drop)]
pub enum Ty {
    /// Numbers.
    Nat,
    /// Functions from the first to the second.
    Arrow(Box<Ty>, Box<Ty>),
    /// Pairs of the first and the second.
    Product(Box<Ty>, Box<Ty>),
}

impl Ty {
    /// An equal type.
    ///
    /// # Errors
    ///
    /// It runs out of memory.
    #[cycle(copy)]
    pub fn copy(&self, alloc: Global) -> Result<Ty, AllocError>
        ensures { IfOk result (λ t. ty_of t ≡ ty_of self.now) }
    {
        match self {
            Ty::Nat => Ok(Ty::Nat),
            Ty::Arrow(from, to) => {
                let from = from.boxed(alloc)?;
                Ok(Ty::Arrow(from, to.boxed(alloc)?))
            }
            Ty::Product(left, right) => {
                let left = left.boxed(alloc)?;
                Ok(Ty::Product(left, right.boxed(alloc)?))
            }
        }
    }

    /// An equal type in a box.
    #[cycle(copy)]
    fn boxed(&self, alloc: Global) -> Result<Box<Ty>, AllocError>
        ensures { IfOk result (λ t. ty_of t.value ≡ ty_of self.now) }
    {
        Ok(Box::new(alloc, self.copy(alloc)?)?)
    }

    /// Whether both are one type. Nothing is copied.
    pub fn same(&self, other: &Ty) -> bool
        ensures { IsTrue result ↔ (ty_of self.now ≡ ty_of other.now) }
    {
        match (self, other) {
            (Ty::Nat, Ty::Nat) => true,
            (Ty::Arrow(a, b), Ty::Arrow(c, d)) => a.same(c) && b.same(d),
            (Ty::Product(a, b), Ty::Product(c, d)) => a.same(c) && b.same(d),
            _ => false,
        }
    }
}
