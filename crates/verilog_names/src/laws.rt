//! What holds of the names that a circuit's module may have.

ghost use Rattle.verilog_names.specs.Name.{ReservedHasKeywords};

/// Each word that IEEE 1364-2005 reserves is one that names no module.
pub fn law_reserved()
    ensures { ReservedHasKeywords }
{}
