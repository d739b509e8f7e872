//! What holds of the tree of the module of joined rows.

ghost use Rattle.joined_module_fits.specs.Laws.{EmptyFits, JoinedWellFormed};

/// The module of a table that fits, with so many cells and forks and so many ports, is one that the standard takes.
pub fn law_joined_well_formed()
    ensures { JoinedWellFormed }
{}

/// The table without rows fits, unless cells, forks or ports are more than tools count.
pub fn law_empty_fits()
    ensures { EmptyFits }
{}
