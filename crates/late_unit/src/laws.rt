//! What the unit of numbers does at an edge, whatever else goes on.

ghost use Rattle.late_unit.specs.Laws.{LateSame, LateReset, LateFree, LateRests, LateStarts, LateGoes, LateBusy, LateTakes, LateTells};

/// What it works at is told by its registers. The start makes it free, and free it stays until a number begins. Then it goes on for an
/// edge, or for two edges a bit of a product and one more, and is free again.
pub fn law_late_unit()
    ensures same { LateSame }
    ensures reset { LateReset }
    ensures rests { LateRests }
    ensures starts { LateStarts }
    ensures goes { LateGoes }
    ensures takes { LateTakes }
{}

/// Where it is free, or goes on, nothing is told; at the last edge the value is.
pub fn law_late_told()
    ensures free { LateFree }
    ensures busy { LateBusy }
    ensures tells { LateTells }
{}
