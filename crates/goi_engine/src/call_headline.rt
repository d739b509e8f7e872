//! The headline of a call.

ghost use Rattle.goi_engine.specs.CallHeadline.{CallHeadline, OneCallOutcome};

use adequacy_laws::law_one_length;
use function_runs::law_one_function;

/// What `goi call FILE N ..` comes to, as one sentence that follows from the promise of `goi`: status 0 with the value of the text's term
/// applied to the numbers and the length of that application's net, 5 where that length is absent or above the budget, 1 where the text is
/// no function of so many numbers; nothing else but want of memory where nothing fails. And a call comes to one of these alone.
pub fn law_call_headline()
    ensures call { CallHeadline }
    ensures one { OneCallOutcome }
{
    law_one_length();
    law_one_function();
}
