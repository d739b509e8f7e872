//! What each part of the clock's block writes.

ghost use Rattle.joined_clock.specs.Laws.{ClockByParts};

/// Behind an edge without a start each register holds what one part of the clock's block writes, as if that part stood alone.
pub fn law_clock_parts()
    ensures { ClockByParts }
{}
