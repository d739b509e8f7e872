//! What holds of rows.

ghost use Rattle.net_rows.specs.RowLaws.{RowsMove};
ghost use Rattle.net_rows.specs.Example.{ExampleNets, ExampleSuccRows, ExampleSumRows, ExampleDoubleRows};

/// On a sound net a token's move, where it has one, is the move by its channel's row.
pub fn law_net_rows()
    ensures { RowsMove }
{}

/// The rows of three programs.
pub fn law_example_rows()
    ensures nets { ExampleNets }
    ensures succ_rows { ExampleSuccRows }
    ensures sum_rows { ExampleSumRows }
    ensures double_rows { ExampleDoubleRows }
{}
