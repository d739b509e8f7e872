//! The binders around a term.

ghost use Rattle.std.specs.Prelude.{◌≡◌, ℕ, ◌<◌, ◌^◌, length, Some, None, MatchOption, IfSome};
ghost use Rattle.pcf_values.specs.Views.{ty_of};
ghost use Rattle.pcf_types.specs.Checking.{nearest};
ghost use Rattle.pcf_types.specs.Views.{scope_of};

use pcf_values::{Ident, Ty};

/// The binders around a term, the nearest outermost in the value. Names and types are borrowed from the program.
#[derive(Drop)]
pub(crate) enum Scope<'s, 'p> {
    Closed,
    Under(&'p Ident, &'p Ty, &'s Scope<'s, 'p>),
}

impl<'s, 'p> Scope<'s, 'p> {
    /// The nearest binder of the name: how many binders stand nearer, and its type.
    pub(crate) fn nearest(&self, name: &Ident) -> Option<(u32, &'p Ty)>
        requires { length (scope_of self.now) < 2 ^ 32 }
        ensures found { MatchOption result (nearest name.now (scope_of self.now) ≡ None)
            (λ f. nearest name.now (scope_of self.now) ≡ Some (f.0, ty_of f.1.now)) }
        ensures within { IfSome result (λ f. f.0 < length (scope_of self.now)) }
    {
        match self {
            Scope::Closed => None,
            Scope::Under(binder, ty, outer) => {
                if name.as_str() == binder.as_str() {
                    return Some((0, *ty));
                }
                let (index, ty) = outer.nearest(name)?;
                Some((index + 1, ty))
            }
        }
    }
}
