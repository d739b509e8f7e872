//! The laws of the text.

ghost use Rattle.verilog_waves.specs.Laws.{CodesDiffer, ValuesTell};

/// No two names have one code.
pub fn law_codes_differ()
    ensures { CodesDiffer }
{}

/// The digits of a value are those of its number, where it has no more bits than the name.
pub fn law_values_tell()
    ensures { ValuesTell }
{}
