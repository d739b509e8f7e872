//! A table of numbers under names and places.

ghost use Rattle.std.specs.Prelude.{◌≡◌, ◌<◌, ℕ, [], IfOk, OnOk, get_or, length};
ghost use Rattle.verilog_tree.specs.Names.{text_of};
ghost use Rattle.verilog_run.specs.Entries.{rows, under, Holds, TableHolds, entries, found, slot};

use crate::cells::{Cell, find, put};
use crate::names::slot_of_name;
use std::alloc::{AllocError, Global};
use wide_numbers::Number;

/// Numbers under names and places, in lists of which the name tells one.
#[derive(Drop)]
pub(crate) struct Table {
    pub(crate) lists: Vec<Vec<Cell>>,
}

/// The number at a place, which is 0 past the end.
fn number_in(alloc: Global, numbers: &[Number], at: &Number) -> Result<Number, AllocError>
    ensures { IfOk result (λ n. n ≡ get_or numbers.now at.now 0) }
{
    match at.within(numbers.len()) {
        Some(i) => numbers[i].copy(alloc),
        None => Ok(Number::zero(alloc)),
    }
}

/// The first number, which is 0 where there is none.
fn first_in(alloc: Global, numbers: &[Number]) -> Result<Number, AllocError>
    ensures { IfOk result (λ n. n ≡ get_or numbers.now 0 0) }
{
    match numbers {
        [] => Ok(Number::zero(alloc)),
        [first, ..] => first.copy(alloc),
    }
}

impl Table {
    /// A table in which all is 0.
    pub(crate) fn new(alloc: Global) -> Table
        ensures { rows result ≡ [] }
    {
        Table {
            lists: Vec::new(alloc),
        }
    }
}

/// The list that a name is looked for in.
fn list_of<'t>(table: &'t Table, name: &[u8]) -> &'t [Cell]
    ensures { (i : ℕ) → found (entries result.now) (text_of name.now) i ≡ under (rows table.now) (text_of name.now) i }
{
    let k = slot_of_name(name);
    if k < table.lists.len() {
        return &table.lists[k];
    }
    &[]
}

/// The number under a name, at a place.
pub(crate) fn number_at(
    alloc: Global,
    table: &Table,
    name: &[u8],
    at: &Number,
) -> Result<Number, AllocError>
    ensures { IfOk result (λ n. n ≡ under (rows table.now) (text_of name.now) at.now) }
{
    number_in(alloc, find(list_of(table, name), name), at)
}

/// The number under a name, at the first place.
pub(crate) fn number(alloc: Global, table: &Table, name: &[u8]) -> Result<Number, AllocError>
    ensures { IfOk result (λ n. n ≡ under (rows table.now) (text_of name.now) 0) }
{
    first_in(alloc, find(list_of(table, name), name))
}

/// Adds empty lists, until there are so many.
fn reach(alloc: Global, table: &mut Table, k: usize) -> Result<(), AllocError>
    ensures long { OnOk result (k < length (rows table.new)) }
    ensures same { OnOk result ((j : ℕ) → get_or (rows table.new) j [] ≡ get_or (rows table.old) j []) }
{
    while table.lists.len() <= k {
        table.lists.push(Vec::new(alloc))?;
    }
    Ok(())
}

/// Puts a number into a list that there is.
fn put_in(
    alloc: Global,
    table: &mut Table,
    k: usize,
    name: &[u8],
    at: usize,
    number: Number,
) -> Result<(), AllocError>
    requires there { k < length (rows table.old) }
    requires own { k ≡ slot (text_of name.now) }
    ensures { OnOk result (TableHolds (rows table.new) (rows table.old) (text_of name.now) at number) }
{
    put(alloc, &mut table.lists[k], name, at, number)?;
    Ok(())
}

/// Puts a number under a name, at a place.
pub(crate) fn put_at(
    alloc: Global,
    table: &mut Table,
    name: &[u8],
    at: usize,
    number: Number,
) -> Result<(), AllocError>
    ensures { OnOk result (TableHolds (rows table.new) (rows table.old) (text_of name.now) at number) }
{
    let k = slot_of_name(name);
    reach(alloc, table, k)?;
    put_in(alloc, table, k, name, at, number)
}
