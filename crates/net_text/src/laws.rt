//! What holds of the texts of nets.

ghost use Rattle.net_text.specs.Laws.{OneAnswer};
ghost use Rattle.net_text.specs.Constants.{LimitsAre};
ghost use Rattle.net_text.specs.Laws.{TextsAreRead, TypesAreRead};
ghost use Rattle.net_text.specs.Standing.{StandingIsBeginning};

use net_check::law_net_one_fault;

/// Lines of a text stand one behind the other exactly where a listing begins with them.
pub fn law_standing()
    ensures { StandingIsBeginning }
{}

/// A printed type is read, with what follows it, where it is no higher than the bound.
pub fn law_type_read()
    ensures { TypesAreRead }
{}

/// A listing gives its net by its lines, and of any other text the first line that can't stand there is found.
pub fn law_texts_read()
    ensures { TextsAreRead }
{}

/// Bytes have one answer, want of memory aside.
pub fn law_listing_one_answer()
    ensures { OneAnswer }
{
    law_net_one_fault();
}

/// Each limit is the number that definitions and contracts call by its name.
pub fn law_listing_limits()
    ensures { LimitsAre }
{}
