//! What keeps the rule of a meter's word.

ghost use Rattle.progress_meter.specs.Steps.{StepsKeep};

/// The rule holds of a new meter, and each step that an end can make keeps it.
pub fn law_steps_keep_the_rule()
    ensures { StepsKeep }
{}
