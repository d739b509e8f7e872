//! What the counts say.

ghost use Rattle.joined_needs.specs.Laws.{NeedsExact, NeedsSame};

/// A circuit isn't full after so many edges just where there was a row for each of them and it has as many cells and forks as were counted
/// up to there; and then it makes the very edges that were counted.
pub fn law_needs_exact()
    ensures exact { NeedsExact }
    ensures same { NeedsSame }
{}
