//! Copies of tables.

ghost use Rattle.std.specs.Prelude.{◌≡◌, ◌++◌, map, IfOk, OnOk};
ghost use Rattle.verilog_run.specs.Entries.{entry, entries, lists_of, rows};

use crate::cells::Cell;
use crate::table::Table;
use std::alloc::{AllocError, Global};
use wide_numbers::Number;

/// Adds equal numbers at the end.
fn add_numbers(alloc: Global, out: &mut Vec<Number>, numbers: &[Number]) -> Result<(), AllocError>
    ensures { OnOk result (out.new.items ≡ out.old.items ++ numbers.now) }
{
    for n in numbers {
        let n = n.copy(alloc)?;
        out.push(n)?;
    }
    Ok(())
}

/// An equal cell.
fn copied(alloc: Global, cell: &Cell) -> Result<Cell, AllocError>
    ensures { IfOk result (λ c. entry c ≡ entry cell.now) }
{
    let mut numbers = Vec::new(alloc);
    add_numbers(alloc, &mut numbers, &cell.numbers)?;
    let name = Vec::from_slice(alloc, &cell.name)?;
    Ok(Cell { name, numbers })
}

/// Adds equal cells at the end.
fn add_cells(alloc: Global, out: &mut Vec<Cell>, cells: &[Cell]) -> Result<(), AllocError>
    ensures { OnOk result (entries out.new.items ≡ entries out.old.items ++ entries cells.now) }
{
    for cell in cells {
        let cell = copied(alloc, cell)?;
        out.push(cell)?;
    }
    Ok(())
}

/// Equal cells.
fn copied_cells(alloc: Global, cells: &[Cell]) -> Result<Vec<Cell>, AllocError>
    ensures { IfOk result (λ v. entries v.items ≡ entries cells.now) }
{
    let mut out = Vec::new(alloc);
    add_cells(alloc, &mut out, cells)?;
    Ok(out)
}

/// Adds equal lists at the end.
fn add_lists(alloc: Global, out: &mut Vec<Vec<Cell>>, lists: &[Vec<Cell>]) -> Result<(), AllocError>
    ensures { OnOk result (lists_of out.new.items ≡ lists_of out.old.items ++ lists_of lists.now) }
{
    for list in lists {
        let list = copied_cells(alloc, list)?;
        out.push(list)?;
    }
    Ok(())
}

/// An equal table.
pub(crate) fn copy(alloc: Global, table: &Table) -> Result<Table, AllocError>
    ensures { IfOk result (λ t. rows t ≡ rows table.now) }
{
    let mut lists = Vec::new(alloc);
    add_lists(alloc, &mut lists, &table.lists)?;
    Ok(Table { lists })
}
