//! What the translation is worth.

ghost use Rattle.cbv_terms.specs.Examples.{ExampleValues, ExampleFaults};
ghost use Rattle.cbv_terms.specs.Laws.{SameValues, TranslatedIsTyped, TranslatedSize, TranslatedHeight, MoreDepth, OneValue};
ghost use Rattle.cbv_terms.specs.Laws.{FaultlessIsAccepted, SomeFirstFault, OneFirstFault};

/// A closed term of type `nat` means a value by value exactly where its translation means it by name.
pub fn law_by_value()
    ensures { SameValues }
{}

/// The translation is a closed term of type `nat`, of bounded size and height.
pub fn law_translated()
    ensures typed { TranslatedIsTyped }
    ensures size { TranslatedSize }
    ensures height { TranslatedHeight }
{}

/// More depth keeps a result by value, and a term has one value at most.
pub fn law_by_value_one_value()
    ensures more_depth { MoreDepth }
    ensures one_value { OneValue }
{}

/// A program has no fault exactly where its term is accepted, and else one first fault.
pub fn law_faults()
    ensures accepted { FaultlessIsAccepted }
    ensures some { SomeFirstFault }
    ensures one { OneFirstFault }
{}

/// Meanings and translations of some programs.
pub fn law_example_values()
    ensures { ExampleValues }
{}

/// First faults of some programs.
pub fn law_example_faults()
    ensures { ExampleFaults }
{}
