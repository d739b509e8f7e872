//! Terms with their types, and what may be asked of the type.

ghost use Rattle.std.specs.Prelude.{◌≡◌, Ok, Err, IfOk, IfErr};
ghost use Rattle.pcf_values.specs.Terms.{nat, at_side, proj};
ghost use Rattle.pcf_values.specs.Views.{term_of, ty_of};
ghost use Rattle.pcf_types.specs.Checking.{as_type};
ghost use Rattle.pcf_types.specs.Views.{known_of, answer_of};
ghost use Rattle.pcf_types.specs.declared.fault.TypeFault.TheVariants.{NoMemory};

use crate::TypeFault;
use crate::known::Known;
use pcf_values::{Side, Term, Ty};
use std::alloc::Global;

/// A term with its type.
#[derive(Drop)]
pub(crate) struct Judged<'p> {
    pub(crate) term: Box<Term>,
    pub(crate) ty: Known<'p>,
}

/// A term of a function's type, with what it takes and gives.
#[derive(Drop)]
pub(crate) struct Function<'p> {
    pub(crate) term: Box<Term>,
    pub(crate) from: &'p Ty,
    pub(crate) to: Known<'p>,
}

/// A term of a pair's type, with the types of the pair's parts.
#[derive(Drop)]
pub(crate) struct Paired<'p> {
    pub(crate) term: Box<Term>,
    pub(crate) left: Known<'p>,
    pub(crate) right: Known<'p>,
}

impl<'p> Judged<'p> {
    /// This term with this type.
    pub(crate) fn of(alloc: Global, term: Term, ty: Known<'p>) -> Result<Judged<'p>, TypeFault>
        ensures ok { IfOk result (λ j. answer_of (term_of term) (known_of ty.entry) ≡ Ok (term_of j.term.value, known_of j.ty)) }
        ensures fault { IfErr result (λ f. f ≡ NoMemory) }
    {
        let term = Box::new(alloc, term)?;
        Ok(Judged { term, ty })
    }

    /// This term of type `nat`.
    pub(crate) fn nat(alloc: Global, term: Term) -> Result<Judged<'p>, TypeFault>
        ensures ok { IfOk result (λ j. answer_of (term_of term) nat ≡ Ok (term_of j.term.value, known_of j.ty)) }
        ensures fault { IfErr result (λ f. f ≡ NoMemory) }
    {
        Judged::of(alloc, term, Known::Nat)
    }

    /// The term, where it is of this type, and else the fault.
    #[tactic(auto, using(crate::proofs::SameTypes::as_type_same, crate::proofs::SameTypes::as_type_other))]
    pub(crate) fn into_type(self, ty: &Ty, fault: TypeFault) -> Result<Box<Term>, TypeFault>
        ensures ok { IfOk result (λ m. as_type (ty_of ty.now) fault (term_of self.entry.term.value) (known_of self.entry.ty) ≡ Ok
            (term_of m.value)) }
        ensures fault { IfErr result (λ f. as_type (ty_of ty.now) fault (term_of self.entry.term.value) (known_of self.entry.ty) ≡ Err
            f) }
    {
        if self.ty.is(ty) {
            Ok(self.term)
        } else {
            Err(fault)
        }
    }
}

impl<'p> Paired<'p> {
    /// The part of the pair on this side.
    pub(crate) fn part(self, alloc: Global, side: Side) -> Result<Judged<'p>, TypeFault>
        ensures ok { IfOk result (λ j. answer_of (proj side (term_of self.entry.term.value))
            (at_side side (known_of self.entry.left) (known_of self.entry.right)) ≡ Ok (term_of j.term.value, known_of j.ty)) }
        ensures fault { IfErr result (λ f. f ≡ NoMemory) }
    {
        let term = Term::Proj(side, self.term);
        match side {
            Side::Left => Judged::of(alloc, term, self.left),
            Side::Right => Judged::of(alloc, term, self.right),
        }
    }
}
