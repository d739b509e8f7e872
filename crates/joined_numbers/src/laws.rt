//! What the numbers of a table do.

ghost use Rattle.joined_numbers.specs.Laws.{RowFound, RowsAlong, RowNeeds, RowLooks, RowsMean, RowsAtPorts};

use net_build::law_built_sound;

/// At a key and what is seen there the row is found by their numbers.
pub fn law_row_found()
    ensures { RowFound }
{}

/// So many rows of numbers are so many cycles of the circuit over compound cells, with numbers in place of keys and shapes.
pub fn law_rows_along()
    ensures { RowsAlong }
{}

/// The row that is found then takes pointers that are in its lists, words of cells that are in use, and what a fork has once it was
/// answered; and where a pointer is looked at there is one.
pub fn law_row_needs()
    ensures needs { RowNeeds }
    ensures looks { RowLooks }
{}

/// The rows of a program are full or tell what the program means.
pub fn law_rows_mean()
    ensures { RowsMean }
{
    law_built_sound();
}

/// A table that is right of a net with the ports' own numbers is right of it with any numbers there.
pub fn law_rows_at_ports()
    ensures { RowsAtPorts }
{}
