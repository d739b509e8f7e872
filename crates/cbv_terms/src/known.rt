//! Types of parts of the term, and the types of what stands for their results.

ghost use Rattle.std.specs.Prelude.{◌≡◌, IfOk};
ghost use Rattle.pcf_values.specs.Terms.{TyTree, nat, arrow};
ghost use Rattle.pcf_values.specs.Views.{ty_of};
ghost use Rattle.cbv_terms.specs.Translation.{value_type, continuation_type};
ghost use Rattle.cbv_terms.specs.Views.{known_of};

use pcf_values::Ty;
use std::alloc::{AllocError, Global};

/// A type of a part of the term. What the term holds of it is borrowed, so that it is never copied.
#[derive(Drop)]
pub(crate) enum Known<'p> {
    Nat,
    Written(&'p Ty),
    Function(&'p Ty, Box<Known<'p>>),
}

impl<'p> Known<'p> {
    /// What a function of this type takes and gives.
    pub(crate) fn into_function(self) -> (&'p Ty, Known<'p>)
        requires { (a b : TyTree) × (known_of self ≡ arrow a b) }
        ensures { known_of self.entry ≡ arrow (ty_of result.0.now) (known_of result.1) }
    {
        match self {
            Known::Written(Ty::Arrow(from, to)) => (from, Known::Written(to)),
            Known::Function(from, to) => (from, Box::into_inner(to)),
            _ => unreachable!(),
        }
    }

    /// The type of what stands for a result of this type.
    #[cycle(value_type)]
    pub(crate) fn value_type(&self, alloc: Global) -> Result<Ty, AllocError>
        ensures { IfOk result (λ t. ty_of t ≡ value_type (known_of self.now)) }
    {
        match self {
            Known::Nat => Ok(Ty::Nat),
            Known::Written(ty) => value_type(alloc, ty),
            Known::Function(from, to) => {
                let from = boxed_value_type(alloc, from)?;
                function_type(alloc, from, to.boxed_value_type(alloc)?)
            }
        }
    }

    /// The same in a box.
    #[cycle(value_type)]
    fn boxed_value_type(&self, alloc: Global) -> Result<Box<Ty>, AllocError>
        ensures { IfOk result (λ t. ty_of t.value ≡ value_type (known_of self.now)) }
    {
        Ok(Box::new(alloc, self.value_type(alloc)?)?)
    }

    /// The type of a continuation that takes a result of this type.
    pub(crate) fn continuation_type(&self, alloc: Global) -> Result<Ty, AllocError>
        ensures { IfOk result (λ t. ty_of t ≡ continuation_type (known_of self.now)) }
    {
        let from = self.boxed_value_type(alloc)?;
        let to = Box::new(alloc, Ty::Nat)?;
        Ok(Ty::Arrow(from, to))
    }
}

/// The type of what stands for a result of this type.
#[cycle(of_ty)]
pub(crate) fn value_type(alloc: Global, ty: &Ty) -> Result<Ty, AllocError>
    ensures { IfOk result (λ t. ty_of t ≡ value_type (ty_of ty.now)) }
{
    match ty {
        Ty::Nat => Ok(Ty::Nat),
        Ty::Arrow(from, to) => {
            let from = boxed_value_type(alloc, from)?;
            function_type(alloc, from, boxed_value_type(alloc, to)?)
        }
        Ty::Product(left, right) => {
            let left = boxed_value_type(alloc, left)?;
            Ok(Ty::Product(left, boxed_value_type(alloc, right)?))
        }
    }
}

/// The same in a box.
#[cycle(of_ty)]
fn boxed_value_type(alloc: Global, ty: &Ty) -> Result<Box<Ty>, AllocError>
    ensures { IfOk result (λ t. ty_of t.value ≡ value_type (ty_of ty.now)) }
{
    Ok(Box::new(alloc, value_type(alloc, ty)?)?)
}

/// `from -> (to -> nat) -> nat`, the type of a function that stands for one, by the types of what stands for its argument and result.
fn function_type(alloc: Global, from: Box<Ty>, to: Box<Ty>) -> Result<Ty, AllocError>
    ensures { IfOk result (λ t. ty_of t ≡ arrow (ty_of from.value) (arrow (arrow (ty_of to.value) nat) nat)) }
{
    let continuation = to_nat(alloc, to)?;
    let rest = to_nat(alloc, continuation)?;
    Ok(Ty::Arrow(from, rest))
}

/// `from -> nat`.
fn to_nat(alloc: Global, from: Box<Ty>) -> Result<Box<Ty>, AllocError>
    ensures { IfOk result (λ t. ty_of t.value ≡ arrow (ty_of from.value) nat) }
{
    let to = Box::new(alloc, Ty::Nat)?;
    Ok(Box::new(alloc, Ty::Arrow(from, to))?)
}
