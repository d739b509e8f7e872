//! That a call is the run of a text.

ghost use Rattle.function_runs.specs.Laws.{AppliedTree, AppliedText, OneFunction, OneOfAny, SameAsText};

use pcf_reader::{law_one_tree, law_text_one_fault, law_text_or_fault};
use program_runs::law_one_program;

/// A text is one function of so many numbers, or has one first fault, and never both.
pub fn law_one_function()
    ensures { OneFunction }
{
    law_one_tree();
    law_text_one_fault();
    law_text_or_fault();
}

/// A text is a function of one number of arguments, and one such function; or it has one first fault as whatever function; and never both.
pub fn law_one_of_any()
    ensures { OneOfAny }
{
    law_one_tree();
    law_one_function();
}

/// A tree that is a function, applied to as many numbers as it takes, is a program of type `nat`: that of its term, applied to them. So a
/// text that stands for such a tree is such a program.
pub fn law_applied_tree()
    ensures tree { AppliedTree }
    ensures text { AppliedText }
{}

/// What a run of a text by name comes to, where the text stands for a term applied to numbers, is what a call of the term's function at
/// these numbers comes to: the same value or none, and the same log.
pub fn law_same_as_text()
    ensures { SameAsText }
{
    law_one_program();
}
