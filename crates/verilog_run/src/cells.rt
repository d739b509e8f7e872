//! Lists of numbers under names.

ghost use Rattle.std.specs.Prelude.{◌≡◌, ◌<◌, ◌≤◌, ℕ, List, nat_eq, IfSome, IfNone, IfOk, OnOk, length, get_or, [], ◌∷◌, ◌++◌};
ghost use lib.Text.{eqt};
ghost use Rattle.verilog_tree.specs.Names.{text_of};
ghost use Rattle.verilog_run.specs.Entries.{entries, found, new_entry, put_at, numbers_at, Holds, Puts};

use crate::names::same_name;
use std::alloc::{AllocError, Global};
use wide_numbers::Number;

/// The numbers under a name: that of a vector, or the words of a memory as far as they were written.
#[derive(Drop)]
pub(crate) struct Cell {
    pub(crate) name: Vec<u8>,
    pub(crate) numbers: Vec<Number>,
}

/// Whether a cell has this name.
fn is_named(cell: &Cell, name: &[u8]) -> bool
    ensures { result ≡ eqt (text_of cell.now.name.items) (text_of name.now) }
{
    same_name(&cell.name, name)
}

/// The numbers under a name.
pub(crate) fn find<'c>(cells: &'c [Cell], name: &[u8]) -> &'c [Number]
    ensures { (i : ℕ) → get_or result.now i 0 ≡ found (entries cells.now) (text_of name.now) i }
{
    match cells {
        [] => &[],
        [first, rest @ ..] => {
            if is_named(first, name) {
                &first.numbers
            } else {
                find(rest, name)
            }
        }
    }
}

/// Where the cell of this name stands.
fn place(cells: &[Cell], name: &[u8]) -> Option<usize>
    ensures within { IfSome result (λ k. k < length cells.now) }
    ensures some { IfSome result (λ k. (i n : ℕ) (ns : List ℕ) → Puts ns (numbers_at (entries cells.now) k) i n →
        Holds (put_at (entries cells.now) k ns) (entries cells.now) (text_of name.now) i n) }
    ensures none { IfNone result ((i n : ℕ) (ns : List ℕ) → Puts ns [] i n →
        Holds (entries cells.now ++ new_entry (text_of name.now) ns ∷ []) (entries cells.now) (text_of name.now) i n) }
{
    match cells {
        [] => None,
        [first, rest @ ..] => {
            if is_named(first, name) {
                return Some(0);
            }
            match place(rest, name) {
                Some(k) => Some(k + 1),
                None => None,
            }
        }
    }
}

/// Adds zeros, until there is a number at a place.
fn reach(alloc: Global, numbers: &mut Vec<Number>, at: usize) -> Result<(), AllocError>
    ensures long { OnOk result (at < length numbers.new.items) }
    ensures same { OnOk result ((j : ℕ) → get_or numbers.new.items j 0 ≡ get_or numbers.old.items j 0) }
{
    while numbers.len() <= at {
        numbers.push(Number::zero(alloc))?;
    }
    Ok(())
}

/// Puts a number at a place.
fn put_number(
    alloc: Global,
    numbers: &mut Vec<Number>,
    at: usize,
    number: Number,
) -> Result<(), AllocError>
    ensures { OnOk result (Puts numbers.new.items numbers.old.items at number) }
{
    reach(alloc, numbers, at)?;
    numbers[at] = number;
    Ok(())
}

/// Adds a cell at the end.
fn add(
    alloc: Global,
    cells: &mut Vec<Cell>,
    name: &[u8],
    at: usize,
    number: Number,
) -> Result<(), AllocError>
    ensures { OnOk result ((ns : List ℕ) × Puts ns [] at number
        × (entries cells.new.items ≡ entries cells.old.items ++ new_entry (text_of name.now) ns ∷ [])) }
{
    let mut numbers = Vec::new(alloc);
    put_number(alloc, &mut numbers, at, number)?;
    let name = Vec::from_slice(alloc, name)?;
    cells.push(Cell { name, numbers })?;
    Ok(())
}

/// Puts a number under a name and at a place.
pub(crate) fn put(
    alloc: Global,
    cells: &mut Vec<Cell>,
    name: &[u8],
    at: usize,
    number: Number,
) -> Result<(), AllocError>
    ensures { OnOk result (Holds (entries cells.new.items) (entries cells.old.items) (text_of name.now) at number) }
{
    match place(cells, name) {
        Some(k) => {
            put_number(alloc, &mut cells[k].numbers, at, number)?;
            Ok(())
        }
        None => add(alloc, cells, name, at, number),
    }
}
