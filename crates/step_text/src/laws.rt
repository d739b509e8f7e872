//! What holds of the texts.

ghost use Rattle.step_text.specs.Laws.{ToldIsMeant, NoneIsLimit};

/// The value that is told is the one that the program means.
pub fn law_told_is_meant()
    ensures { ToldIsMeant }
{}

/// A program of type `nat` for which no value is told has used its whole budget, or has come to a term that is too large.
pub fn law_none_is_limit()
    ensures { NoneIsLimit }
{}
