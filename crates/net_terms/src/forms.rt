//! The forms of terms with one operand and with two.

ghost use Rattle.std.specs.Prelude.{◌≡◌};
ghost use Rattle.pcf_values.specs.Views.{term_of};
ghost use Rattle.net_terms.specs.Forms.{one_term, two_term};

use pcf_values::{Operator, Side, Term};

#[derive(Clone, Copy)]
pub(crate) enum One {
    Succ,
    Pred,
    Proj(Side),
}

impl One {
    /// The term of this form.
    pub(crate) fn term(self, a: Box<Term>) -> Term
        ensures { term_of result ≡ one_term self (term_of a.value) }
    {
        match self {
            One::Succ => Term::Succ(a),
            One::Pred => Term::Pred(a),
            One::Proj(side) => Term::Proj(side, a),
        }
    }
}

#[derive(Clone, Copy)]
pub(crate) enum Two {
    Binary(Operator),
    App,
    Pair,
}

impl Two {
    /// The term of this form.
    pub(crate) fn term(self, a: Box<Term>, b: Box<Term>) -> Term
        ensures { term_of result ≡ two_term self (term_of a.value) (term_of b.value) }
    {
        match self {
            Two::Binary(operator) => Term::Binary(operator, a, b),
            Two::App => Term::App(a, b),
            Two::Pair => Term::Pair(a, b),
        }
    }
}
