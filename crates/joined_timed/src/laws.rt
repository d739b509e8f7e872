//! How rows with their waits go along with the rows.

ghost use Rattle.joined_timed.specs.Laws.{TimedAlong};

/// Each edge is a row that is made, or one at which a row rests or waits; a row rests for as long as a number is on its way and no longer,
/// so that a row is made within 133 edges, until the run has ended and its value was told. The row at work is the one of its key and of
/// what is seen there, or waits for what is seen, and it finds what it reads.
pub fn law_timed_along()
    ensures { TimedAlong }
{}
