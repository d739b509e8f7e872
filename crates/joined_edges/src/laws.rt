//! What the row in the registers makes.

ghost use Rattle.joined_edges.specs.Row.{RowMakesMemories, RowMakesWires};

/// Where all has settled, the wires of the new cell's place, of both lists, of the new cell's words and of an opened fork's boxes hold what
/// the row in the registers makes.
pub fn law_row_wires()
    ensures { RowMakesWires }
{}

/// Both operands are those of the row, and behind an edge at which it is made, where there is room, the memories of cells and forks are
/// those of the rows' circuit.
pub fn law_row_memories()
    ensures { RowMakesMemories }
{}
