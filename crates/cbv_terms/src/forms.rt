//! The forms of terms that are translated alike.

ghost use Rattle.std.specs.Prelude.{◌≡◌};
ghost use Rattle.pcf_values.specs.Views.{term_of};
ghost use Rattle.cbv_terms.specs.Views.{unary_of};

use pcf_values::Term;

/// `succ` and `pred`.
#[derive(Clone, Copy)]
pub(crate) enum Unary {
    Succ,
    Pred,
}

impl Unary {
    /// The form with this operand.
    pub(crate) fn of(self, a: Box<Term>) -> Term
        ensures { term_of result ≡ unary_of self (term_of a.value) }
    {
        match self {
            Unary::Succ => Term::Succ(a),
            Unary::Pred => Term::Pred(a),
        }
    }
}
