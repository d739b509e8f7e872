//! The headline.

ghost use Rattle.goi_engine.specs.Headline.{Headline, OneOutcome};

use adequacy_laws::law_one_length;
use program_runs::law_one_program;

/// What `goi run FILE` comes to, as one sentence that follows from the promise of `goi`: status 0 with the program's value and its net's
/// length, 5 where that length is absent or above the budget, 1 where the text is no program; nothing else but want of memory where nothing
/// fails. And a text comes to one of these alone.
pub fn law_headline()
    ensures run { Headline }
    ensures one { OneOutcome }
{
    law_one_length();
    law_one_program();
}
