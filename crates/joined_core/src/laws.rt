//! What holds of the circuit over compound cells.

ghost use Rattle.joined_core.specs.Example.{ExampleTable, ExampleRows, ExampleRefused, ExampleNumbers};
ghost use Rattle.joined_core.specs.Recursive.{ExampleRecursive, ExampleRight, ExampleCounted};
ghost use Rattle.joined_core.specs.Listed.{ListedTable};
ghost use Rattle.joined_core.specs.Laws.{JoinedStep, JoinedFollow, JoinedMeans};
ghost use Rattle.joined_core.specs.Room.{RoomExactly, RoomSame, RoomAlone};
ghost use Rattle.joined_core.specs.Time.{RowsMove, RowsAnswer, RowsCompute};
ghost use Rattle.joined_core.specs.Numbers.{NumbersDiffer, NumbersFind};

use net_build::law_built_sound;

/// A table of four rows answers a program of thirty moves in four cycles. Its rows are right of the net, which two like them aren't, and
/// its keys have numbers.
pub fn law_example_table()
    ensures computes { ExampleTable }
    ensures right { ExampleRows }
    ensures refused { ExampleRefused }
    ensures numbers { ExampleNumbers }
{}

/// A recursion in ten rows, with cells, looks, tests and two open forks, is answered with room for four cells and two forks, and not with
/// less; so it is counted along its rows, which are right of the net.
pub fn law_example_recursive()
    ensures computes { ExampleRecursive }
    ensures right { ExampleRight }
    ensures counted { ExampleCounted }
{}

/// A list of rows that the check takes is a right table.
pub fn law_listed_table()
    ensures { ListedTable }
{}

/// On a net that runs, in a cycle a circuit with a right table is full, or has what the processor has after as many moves as the row has.
pub fn law_joined_step()
    ensures { JoinedStep }
{}

/// So after any number of cycles it is full or shows the state of as many moves as it counted.
pub fn law_joined_follow()
    ensures { JoinedFollow }
{}

/// The circuit of a program with a right table is full or tells what the program means.
pub fn law_joined_means()
    ensures { JoinedMeans }
{
    law_built_sound();
}

/// A circuit isn't full just where each pair that the rows come to has a row, and no more cells are in use and no more forks are open at
/// once than there are; then it is what the rows come to.
pub fn law_joined_room()
    ensures exactly { RoomExactly }
    ensures same { RoomSame }
{}

/// How many cells and forks that is, and how many rows, doesn't depend on what the memory has at reset.
pub fn law_joined_memory()
    ensures { RoomAlone }
{}

/// Each cycle makes a move at least, and the circuit of a program has its value from that cycle on which the rows tell. Where the rows up
/// to the program's length lack no pair and there is room for them, it has it for ever.
pub fn law_joined_time()
    ensures each { RowsMove }
    ensures answers { RowsAnswer }
    ensures computes { RowsCompute }
{
    law_built_sound();
}

/// Keys that have a row have different numbers, each below the number of rows, and a row is found by its key's number.
pub fn law_key_numbers()
    ensures differ { NumbersDiffer }
    ensures find { NumbersFind }
{}
