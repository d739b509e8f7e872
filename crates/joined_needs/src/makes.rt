//! What a row makes.

ghost use Rattle.std.specs.Prelude.{◌≡◌, ◌+◌, ◌<◌, ◌^◌, ℕ, ◌&&◌, IfOk, OnOk, length, nat_eq, if◌then◌else◌};
ghost use Rattle.verilog_tree.specs.Meaning.{flag};
ghost use Rattle.late_unit.specs.Works.{bits_of, edges_of};
ghost use Rattle.pcf_values.specs.declared.val.Val.TheVariants.{Number};
ghost use Rattle.pcf_values.specs.declared.operator.Operator.TheVariants.{Times};
ghost use Rattle.joined_module.specs.Machine.{operand_value, operand_option, worth_value, row_makes};
ghost use Rattle.joined_edges.specs.Timed.{late_after};
ghost use Rattle.joined_numbers.specs.At.{number_at};
ghost use Rattle.joined_data.specs.Views.{operand_view, operand_if, worth_view, row_view};
ghost use Rattle.joined_needs.specs.Views.{pointers_of, cells_of, cell_at, forks_of, held_of};
ghost use Rattle.joined_needs.specs.Making.{forked, Forks, Makes};

use crate::forks::{close_fork, innermost_answer, keep_answer, open_fork};
use crate::pointers::{base_of, pointers_from};
use crate::walk::{Held, Open, Pointer};
use joined_data::{Deed, Operand, Row, Worth, bits_upto};
use pcf_values::{Operator, Val};
use std::alloc::{AllocError, Global};

/// The number at a port.
fn number_at(ports: &[u64], i: u32) -> u64
    ensures { result ≡ number_at ports.now i }
{
    match ports {
        [] => 0,
        [first, rest @ ..] => {
            if i == 0 {
                *first
            } else {
                number_at(rest, i - 1)
            }
        }
    }
}

/// An operand.
fn operand_value(ports: &[u64], held: &Held, x: Operand) -> Val
    ensures { result ≡ operand_value (number_at ports.now) (held_of held.now) (operand_view x) }
{
    match x {
        Operand::Value => held.value,
        Operand::Kept => innermost_answer(&held.forks),
        Operand::Literal(n) => Val::Number(n),
        Operand::Port(i) => Val::Number(number_at(ports, i)),
    }
}

/// One, if there is one.
fn operand_option(ports: &[u64], held: &Held, x: Option<Operand>) -> Option<Val>
    ensures { result ≡ operand_option (number_at ports.now) (held_of held.now) (operand_if x) }
{
    match x {
        None => None,
        Some(x) => Some(operand_value(ports, held, x)),
    }
}

/// The value after a row.
pub(crate) fn worth_value(ports: &[u64], held: &Held, worth: Worth) -> Val
    ensures { result ≡ worth_value (number_at ports.now) (held_of held.now) (worth_view worth) }
{
    match worth {
        Worth::Stays => held.value,
        Worth::Tells(x) => operand_value(ports, held, x),
        Worth::ComesTo(operator, x, y) => {
            let other = operand_value(ports, held, y);
            operand_value(ports, held, x).by(operator, other)
        }
    }
}

/// The bits of a number.
fn bits_of(n: u64) -> u64
    ensures bits { result ≡ bits_of n }
    ensures few { result < 65 }
{
    if n == 0 { 0 } else { bits_upto(n) }
}

/// The edges of a product by this number.
fn product_edges(n: u64) -> u64
    ensures { result ≡ edges_of Times (Number n) }
{
    2 * bits_of(n) + 1
}

/// How many edges two come to what they come to in.
fn edges_of(operator: Operator, other: Val) -> u64
    ensures { result ≡ edges_of operator other }
{
    match operator {
        Operator::Times => match other {
            Val::Number(n) => product_edges(n),
            Val::Overflow => 1,
        },
        _ => 1,
    }
}

/// How late the value is after a row.
pub(crate) fn late_after(ports: &[u64], held: &Held, worth: Worth, late: u64) -> u64
    ensures { result ≡ late_after (number_at ports.now) (held_of held.now) (worth_view worth) late }
{
    match worth {
        Worth::ComesTo(operator, _, y) => edges_of(operator, operand_value(ports, held, y)),
        _ => late.saturating_sub(1),
    }
}

/// What a row does with forks.
#[derive(Drop)]
pub(crate) enum Forking {
    /// Nothing.
    Leaving,
    /// One is opened with these boxes, with the new cell or not, and may have its left answer.
    Opening(Vec<Pointer>, bool, Option<Val>),
    /// The innermost one gets its left answer.
    Keeping(Val),
    /// It is closed.
    Closing,
}

/// What a row makes, before it is put into the circuit.
#[derive(Drop)]
pub(crate) struct Made {
    pub(crate) value: Val,
    pub(crate) sigs: Vec<Pointer>,
    pub(crate) boxes: Vec<Pointer>,
    pub(crate) words: Vec<Pointer>,
    pub(crate) forking: Forking,
    /// Where its cell is.
    pub(crate) base: u64,
}

/// What a row does with forks.
fn forking_of(alloc: Global, ports: &[u64], row: &Row, held: &Held) -> Result<Forking, AllocError>
    ensures { IfOk result (λ f. Forks (number_at ports.now) (row_view row.now) (held_of held.now) f) }
{
    match row.fork {
        Deed::Leaves => Ok(Forking::Leaving),
        Deed::Opens(list, above, kept) => {
            let answered = operand_option(ports, held, kept);
            let boxes = pointers_from(alloc, row, held, list)?;
            Ok(Forking::Opening(boxes, above, answered))
        }
        Deed::Keeps(x) => Ok(Forking::Keeping(operand_value(ports, held, x))),
        Deed::Closes => Ok(Forking::Closing),
    }
}

/// What a row makes.
pub(crate) fn make(alloc: Global, ports: &[u64], row: &Row, held: &Held) -> Result<Made, AllocError>
    ensures { IfOk result (λ m. Makes (number_at ports.now) (row_view row.now) (held_of held.now) m) }
{
    let value = worth_value(ports, held, row.worth);
    let base = base_of(row, held);
    let sigs = pointers_from(alloc, row, held, row.sigs)?;
    let boxes = pointers_from(alloc, row, held, row.boxes)?;
    let words = pointers_from(alloc, row, held, row.words)?;
    let forking = forking_of(alloc, ports, row, held)?;
    Ok(Made {
        value,
        sigs,
        boxes,
        words,
        forking,
        base,
    })
}

/// Adds cells without words, until there is one at a place.
fn reach(alloc: Global, cells: &mut Vec<Vec<Pointer>>, place: usize) -> Result<(), AllocError>
    ensures long { OnOk result (place < length cells.new.items) }
    ensures same { OnOk result ((j : ℕ) → cell_at (cells_of cells.new.items) j ≡ cell_at (cells_of cells.old.items) j) }
{
    while cells.len() <= place {
        cells.push(Vec::new(alloc))?;
    }
    Ok(())
}

/// Puts a cell at a place, and says how many are in use then.
fn put_cell(
    alloc: Global,
    cells: &mut Vec<Vec<Pointer>>,
    place: u64,
    words: Vec<Pointer>,
) -> Result<u64, AllocError>
    ensures top { IfOk result (λ n. n ≡ place + 1) }
    ensures cells { OnOk result ((j : ℕ) → cell_at (cells_of cells.new.items) j
        ≡ (if nat_eq j place then pointers_of words else cell_at (cells_of cells.old.items) j)) }
{
    let at = place as usize;
    reach(alloc, cells, at)?;
    cells[at] = words;
    Ok(place + 1)
}

/// Puts the cell there that a row makes, and says how many are in use then.
fn put_words(
    alloc: Global,
    cells: &mut Vec<Vec<Pointer>>,
    makes: bool,
    base: u64,
    words: Vec<Pointer>,
) -> Result<u64, AllocError>
    ensures top { IfOk result (λ n. n ≡ base + flag makes) }
    ensures cells { OnOk result ((j : ℕ) → cell_at (cells_of cells.new.items) j
        ≡ (if makes && nat_eq j base then pointers_of words else cell_at (cells_of cells.old.items) j)) }
{
    if makes {
        put_cell(alloc, cells, base, words)
    } else {
        Ok(base)
    }
}

/// Does with forks what a row does.
fn fork_on(
    alloc: Global,
    forks: &mut Vec<Open>,
    forking: Forking,
    base: u64,
    top: u64,
) -> Result<(), AllocError>
    ensures { OnOk result (forks_of forks.new.items ≡ forked forking base top (forks_of forks.old.items)) }
{
    match forking {
        Forking::Leaving => Ok(()),
        Forking::Opening(boxes, above, answered) => open_fork(
            forks,
            Open {
                boxes,
                answered,
                top: if above { top } else { base },
            },
        ),
        Forking::Keeping(answer) => keep_answer(alloc, forks, answer),
        Forking::Closing => {
            close_fork(alloc, forks);
            Ok(())
        }
    }
}

/// Puts into the circuit what a row makes.
pub(crate) fn put_made(
    alloc: Global,
    row: &Row,
    held: &mut Held,
    made: Made,
) -> Result<(), AllocError>
    requires few { held.old.moves < 2 ^ 64 }
    ensures { OnOk result ((ps : ℕ → ℕ) → Makes ps (row_view row.now) (held_of held.old) made →
        held_of held.new ≡ row_makes ps (row_view row.now) (held_of held.old)) }
{
    let top = put_words(alloc, &mut held.cells, row.makes, made.base, made.words)?;
    fork_on(alloc, &mut held.forks, made.forking, made.base, top)?;
    held.key = row.to;
    held.site = row.site;
    held.value = made.value;
    held.sigs = made.sigs;
    held.boxes = made.boxes;
    held.top = top;
    held.ended = row.ends;
    held.moves += u128::from(row.moves);
    Ok(())
}
