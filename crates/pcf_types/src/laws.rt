//! Laws of the definition of scope and types.

ghost use Rattle.pcf_types.specs.Correct.{AcceptedIsTyped, TypedIsAccepted, OneType, OneTerm, KeepsSize, NeverMemory};

/// The definition accepts just the trees that stand for a typed term, and gives that term and its type.
pub fn law_correct()
    ensures sound { AcceptedIsTyped }
    ensures complete { TypedIsAccepted }
    ensures one_type { OneType }
    ensures one_term { OneTerm }
    // No tree has want of memory as its fault.
    ensures no_memory { NeverMemory }
{}

/// The term has as many nodes as the tree, and its height.
pub fn law_keeps_size()
    ensures { KeepsSize }
{}
