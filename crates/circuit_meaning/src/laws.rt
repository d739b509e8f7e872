//! What the circuit of a table does.

ghost use Rattle.circuit_meaning.specs.Laws.{TableCircuits, TableCounts};

/// The circuit of a table that the check takes is that of its function: it tells what the function means at all arguments, as long as it
/// has a row, and the cells and the forks that it needs; and what is counted along the rows of the table is what it needs.
pub fn law_circuits()
    ensures circuits { TableCircuits }
    ensures counts { TableCounts }
{}
