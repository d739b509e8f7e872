//! Operands of numbers.

ghost use Rattle.std.specs.Prelude.{◌≡◌, ◌≤◌, length, map};
ghost use Rattle.joined_module.specs.Fields.{kept_operand, worth_first, second_operand, kind_of_operand, same_operand, operand_place};
ghost use Rattle.joined_module.specs.Fields.{number_or, first_number, is_minus, is_times, operand_number};
ghost use Rattle.joined_data.specs.Views.{operand_view, operand_if, worth_view, deed_view, row_view};
ghost use Rattle.joined_data.specs.Figures.{input_view};

use crate::rows::{Deed, Operand, Row, Worth};
use pcf_values::Operator;

/// The operands of the unit of numbers.
#[derive(Clone, Copy)]
pub enum Side {
    /// The first.
    First,
    /// The second.
    Second,
}

/// What a row keeps at a fork.
pub(crate) fn kept_operand(deed: Deed) -> Option<Operand>
    ensures { operand_if result ≡ kept_operand (deed_view deed.entry) }
{
    match deed {
        Deed::Opens(_, _, kept) => kept,
        Deed::Keeps(x) => Some(x),
        _ => None,
    }
}

/// The first operand of what the value comes to.
fn worth_first(worth: Worth) -> Option<Operand>
    ensures { operand_if result ≡ worth_first (worth_view worth) }
{
    match worth {
        Worth::Stays => None,
        Worth::Tells(x) => Some(x),
        Worth::ComesTo(_, x, _) => Some(x),
    }
}

/// The second one, or what is kept at a fork.
fn second_operand(row: &Row) -> Option<Operand>
    ensures { operand_if result ≡ second_operand (row_view row.now) }
{
    match row.worth {
        Worth::ComesTo(_, _, y) => Some(y),
        _ => kept_operand(row.fork),
    }
}

/// What a row has for an operand.
pub fn input_operand(side: Side, row: &Row) -> Option<Operand>
    ensures { operand_if result ≡ (input_view side).source (row_view row.now) }
{
    match side {
        Side::First => worth_first(row.worth),
        Side::Second => second_operand(row),
    }
}

/// An operand without its number.
pub(crate) fn kind_of_operand(x: Operand) -> Operand
    ensures { operand_view result ≡ kind_of_operand (operand_view x) }
{
    match x {
        Operand::Literal(_) => Operand::Literal(0),
        other => other,
    }
}

/// Whether two are the same.
fn same_operand(x: Operand, y: Operand) -> bool
    ensures { result ≡ same_operand (operand_view x) (operand_view y) }
{
    match (x, y) {
        (Operand::Value, Operand::Value) | (Operand::Kept, Operand::Kept) => true,
        (Operand::Literal(m), Operand::Literal(n)) => m == n,
        (Operand::Port(m), Operand::Port(n)) => m == n,
        _ => false,
    }
}

/// The place of an operand among these, or their count.
pub fn operand_place(list: &[Operand], x: Operand) -> u64
    ensures place { result ≡ operand_place (map operand_view list.now) (operand_view x) }
    ensures few { result ≤ length list.now }
{
    match list {
        [] => 0,
        [first, rest @ ..] => {
            if same_operand(*first, x) {
                0
            } else {
                operand_place(rest, x) + 1
            }
        }
    }
}

/// The number of an operand, or another.
fn number_or(other: u64, x: Option<Operand>) -> u64
    ensures { result ≡ number_or other (operand_if x) }
{
    match x {
        Some(Operand::Literal(n)) => n,
        _ => other,
    }
}

/// The number that a row has for an operand, or another.
pub(crate) fn input_number(side: Side, row: &Row, other: u64) -> u64
    ensures { result ≡ number_or other ((input_view side).source (row_view row.now)) }
{
    number_or(other, input_operand(side, row))
}

/// The first number that a row has for an operand.
pub fn first_number(side: Side, rows: &[Row]) -> u64
    ensures { result ≡ first_number (input_view side) (map row_view rows.now) }
{
    match rows {
        [] => 0,
        [first, rest @ ..] => input_number(side, first, first_number(side, rest)),
    }
}

/// The place of an operand's kind among these.
pub(crate) fn operand_number(list: &[Operand], x: Option<Operand>) -> u64
    ensures { result ≡ operand_number (map operand_view list.now) (operand_if x) }
{
    match x {
        None => 0,
        Some(x) => operand_place(list, kind_of_operand(x)),
    }
}

/// A difference.
pub(crate) fn is_minus(operator: Operator) -> bool
    ensures { result ≡ is_minus operator }
{
    match operator {
        Operator::Minus => true,
        _ => false,
    }
}

/// A product.
pub fn is_times(operator: Operator) -> bool
    ensures { result ≡ is_times operator }
{
    match operator {
        Operator::Times => true,
        _ => false,
    }
}
