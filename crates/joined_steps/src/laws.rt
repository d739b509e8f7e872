//! What holds of every module of joined rows whose table fits it.

ghost use Rattle.joined_steps.specs.Laws.{EdgeStarts, EdgeGoes, StandsSame};

/// An edge with the reset up is the start, whatever was there; an edge with the reset down is a row, one that waits, or a rest; and what is
/// at the ports between them is no matter.
pub fn law_joined_edges()
    ensures starts { EdgeStarts }
    ensures goes { EdgeGoes }
    ensures same { StandsSame }
{}
