//! Closed terms with their types.

ghost use Rattle.std.specs.Prelude.{◌≡◌, []};
ghost use Rattle.pcf_values.specs.Views.{term_of, ty_of};
ghost use Rattle.pcf_values.specs.Typing.{HasType};

use crate::{Term, Ty};
use std::marker::Model;

/// A closed term and the type that it has. Contracts see the pair of their trees; the type keeps that the typing relation holds.
#[derive(Drop)]
pub struct Typed {
    term: Term,
    ty: Ty,
}

impl Model for Typed {
    ghost use Rattle.std.specs.Prelude.{[]};
    ghost use Rattle.pcf_values.specs.Terms.{TermTree, TyTree};

    ghost Value = { TermTree × TyTree };

    ghost use Rattle.pcf_values.specs.Codes.{typed_code};

    ghost coded = { typed_code };

    ghost use Rattle.pcf_values.specs.Views.{term_of, ty_of};
    ghost use Rattle.pcf_values.specs.Typing.{HasType};

    ghost view = { λ a. (term_of a.term, ty_of a.ty) };

    ghost invariant = { λ a. HasType [] (term_of a.term) (ty_of a.ty) };
}

impl Typed {
    /// This closed term with this type of its.
    pub fn of(term: Term, ty: Ty) -> Typed
        requires { HasType [] (term_of term) (ty_of ty) }
        ensures { result ≡ (term_of term, ty_of ty) }
    {
        Typed { term, ty }
    }

    /// The term.
    pub fn term(&self) -> &Term
        ensures term { term_of result.now ≡ self.now.0 }
        // The term is closed and has the type.
        ensures typed { HasType [] self.now.0 self.now.1 }
    {
        &self.term
    }

    /// The term itself. The type is dropped.
    pub fn into_term(self) -> Term
        ensures term { term_of result ≡ self.0 }
        ensures typed { HasType [] self.0 self.1 }
    {
        let Typed { term, .. } = self;
        term
    }

    /// Its type.
    pub fn ty(&self) -> &Ty
        ensures { ty_of result.now ≡ self.now.1 }
    {
        &self.ty
    }
}
