//! What the constants of `limits` are, as a contract.

ghost use Rattle.pcf_values.specs.Constants.{LimitsAre};

/// Each limit is the number that definitions and contracts call by its name.
pub fn law_program_limits()
    ensures { LimitsAre }
{}
