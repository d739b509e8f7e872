//! What holds of joined rows, and of compound cells.

ghost use Rattle.joined_rows.specs.Laws.{RowJoins, JoinedRuns, JoinedPairs, JoinedOne};
ghost use Rattle.joined_rows.specs.Ticks.{JoinedTicks};
ghost use Rattle.joined_rows.specs.CompoundTicks.{CompoundTicks};
ghost use Rattle.joined_rows.specs.Example.{ExampleDouble};
ghost use Rattle.joined_rows.specs.CompoundLaws.{Looked, CellKept, CellMade, CellRight, GivenBack, CompoundRows};

/// What a row makes of names, it makes of all that they stand for; so do as many rows as are joined.
pub fn law_joined_rows()
    ensures one { RowJoins }
    ensures runs { JoinedRuns }
{}

/// A row by itself is a joined one, and two joined rows, of which the second goes on where the first ends, are one.
pub fn law_joined_pairs()
    ensures one { JoinedOne }
    ensures pairs { JoinedPairs }
{}

/// A pointer to a compound cell reads through the cell's words; one more cell changes nothing in use, and a term of its words is its shape;
/// an account stays right with one more cell, and where cells are given back.
pub fn law_compound_cells()
    ensures looked { Looked }
    ensures kept { CellKept }
    ensures made { CellMade }
    ensures right { CellRight }
    ensures given_back { GivenBack }
{}

/// A joined row over compound cells is as many moves, and with one cell more its lists stand for the stacks to which these lead.
pub fn law_compound_rows()
    ensures { CompoundRows }
{}

/// With forks and joins a joined row is as many cycles of the processor that walks the newest question first, whatever its names stand
/// for and whatever forks are around.
pub fn law_joined_ticks()
    ensures { JoinedTicks }
{}

/// So it is over compound cells. After as many cycles of the processor the lists and forks that a joined row puts on stand for its
/// registers, in the store with one cell more.
pub fn law_compound_ticks()
    ensures { CompoundTicks }
{}

/// Of `(fun x:nat. x + x) 3` all moves but the last are one joined row.
pub fn law_example_joined()
    ensures { ExampleDouble }
{}
