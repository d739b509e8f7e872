//! What holds of the processor that walks the newest question first.

ghost use Rattle.newest_core.specs.ProcessorLaws.{NewestFollows, ForksNest, AllClosed};
ghost use Rattle.newest_core.specs.Meaning.{NewestMeans};
ghost use Rattle.newest_core.specs.Schedule.{NewestIsStack};
ghost use Rattle.newest_core.specs.Example.{ExampleSums, ExampleRecursive};
ghost use Rattle.newest_core.specs.Placed.{MovesKeep, RunPlaced};

/// On a net that runs, after k cycles the processor shows a state to which its own moves lead; its forks nest, so that an answer that comes
/// to a fork comes to the innermost one and answers what that waits for; and with the answer none is open.
pub fn law_newest()
    ensures follows { NewestFollows }
    ensures nest { ForksNest }
    ensures closed { AllClosed }
{}

/// The runs of two programs.
pub fn law_example_newest()
    ensures sums { ExampleSums }
    ensures recursive { ExampleRecursive }
{}

/// The processor of a closed term of type `nat` has a result exactly when the term means it and there were as many cycles as its net is
/// long.
pub fn law_newest_program()
    ensures { NewestMeans }
{
    net_build::law_built_sound();
}

/// On a net that runs, the processor moves the tickets of a stack: the first one moves, at a fork the new one stands behind it, and where
/// one ends the next goes on.
pub fn law_newest_schedule()
    ensures { NewestIsStack }
{}

/// Each move of a sound net leads from stacks of its wire to stacks of the next one, so that each token of a run, in whatever order, has
/// the stacks of its wire: as many boxes as that is deep, and a work stack that is a path into its type.
pub fn law_placed()
    ensures kept { MovesKeep }
    ensures placed { RunPlaced }
{}
