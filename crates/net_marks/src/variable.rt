//! The variable of a mark.

ghost use Rattle.std.specs.Prelude.{List};
ghost use Rattle.pcf_values.specs.Views.{term_of};
ghost use Rattle.net_build.specs.declared.node.Node.{Node};
ghost use Rattle.net_marks.specs.declared.walk.Mark.{Mark};
ghost use Rattle.net_marks.specs.Reads.{Gives, variable};

use crate::walk::Mark;
use pcf_values::Term;

/// The variable of this mark, under so many binders in this box: how many of them stand between it and its own. `None` where the mark
/// is one of another box, or of none of these binders.
pub fn variable_of(mark: Mark, binders: u32, place: u64) -> Option<Term>
    ensures { (ns : List Node) (ms : List Mark) → Gives term_of result (variable binders place mark ns ms) ns ms }
{
    if mark.place == place && mark.level < binders {
        Some(Term::Var(binders - 1 - mark.level))
    } else {
        None
    }
}
