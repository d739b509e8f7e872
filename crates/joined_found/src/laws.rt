//! What holds of the row that is found.

ghost use Rattle.joined_found.specs.Laws.{FieldsFit, NextRow, RowTaken, RowsLand};

/// Each field has room for its number in each row, and where there is no row.
pub fn law_fields_fit()
    ensures { FieldsFit }
{}

/// After the block that settles each found field is that of the row of the key and of what is seen there, or that of the row that waits.
pub fn law_next_row()
    ensures { NextRow }
{}

/// So what holds of all rows of the module holds of the one that is found.
pub fn law_row_taken()
    ensures { RowTaken }
{}

/// Where each entry sees what its site shows, each row comes to rows that see what it looks at.
pub fn law_rows_land()
    ensures { RowsLand }
{}
