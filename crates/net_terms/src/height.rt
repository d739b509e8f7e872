//! How high a term is.

ghost use Rattle.std.specs.Prelude.{◌≡◌, ◌<◌, ◌^◌};
ghost use Rattle.pcf_values.specs.Terms.{height};
ghost use Rattle.pcf_values.specs.Views.{term_of};

use pcf_values::Term;

/// The height of a term, where 32 bits can hold it.
pub(crate) fn height_of(term: &Term) -> u32
    requires { height (term_of term.now) < 2 ^ 32 }
    ensures { result ≡ height (term_of term.now) }
{
    match term {
        Term::Number(_) | Term::Var(_) => 1,
        Term::Succ(a) | Term::Pred(a) | Term::Proj(_, a) | Term::Fun(_, a) | Term::Fix(_, a) => 1
            + height_of(a),
        Term::Binary(_, a, b) | Term::App(a, b) | Term::Pair(a, b) => {
            1 + height_of(a).max(height_of(b))
        }
        Term::Ifz(c, p, q) => 1 + height_of(c).max(height_of(p).max(height_of(q))),
    }
}
