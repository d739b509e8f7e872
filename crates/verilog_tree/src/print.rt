//! The text of a tree's words: names, numbers, expressions and what is assigned to.

ghost use Rattle.std.specs.Prelude.{◌≡◌, ◌++◌, OnOk, codes, decimal, false, true};
ghost use Rattle.verilog_tree.specs.Names.{text_of};
ghost use Rattle.verilog_tree.specs.Print.{opening, closing, size_text, two_sign, shift_sign};
ghost use Rattle.verilog_tree.specs.Print.{test_sign, logic_sign, expr_text, target_text};
ghost use Rattle.verilog_tree.specs.Print.{put_text};
ghost use Rattle.verilog_tree.specs.Views.{size_of, two_of, way_of, test_of, logic_of, expr_of, target_of};

use crate::tree::{Comparison, Connective, Direction, Expression, Extent, Operation, Place};
use itoa::Buffer;
use std::alloc::AllocError;

/// Appends a name.
#[tactic(auto, using(crate::proofs::Names::codes_more))]
pub(crate) fn push_name(text: &mut Vec<u8>, name: &[u8]) -> Result<(), AllocError>
    ensures { OnOk result (text.new.items ≡ text.old.items ++ codes (text_of name.now)) }
{
    for byte in name {
        text.push(*byte)?;
    }
    Ok(())
}

/// Appends a number.
pub(crate) fn push_number(text: &mut Vec<u8>, n: u64) -> Result<(), AllocError>
    ensures { OnOk result (text.new.items ≡ text.old.items ++ decimal n) }
{
    let mut buffer = Buffer::new();
    text.extend_from_slice(buffer.format(n).as_bytes())
}

/// Appends a number of up to 128 bits.
pub(crate) fn push_wide(text: &mut Vec<u8>, n: u128) -> Result<(), AllocError>
    ensures { OnOk result (text.new.items ≡ text.old.items ++ decimal n) }
{
    let mut buffer = Buffer::new();
    text.extend_from_slice(buffer.format(n).as_bytes())
}

/// Appends a size.
#[cycle(extent)]
pub(crate) fn push_extent(text: &mut Vec<u8>, extent: &Extent) -> Result<(), AllocError>
    ensures { OnOk result (text.new.items ≡ text.old.items ++ size_text (size_of extent.now)) }
{
    match extent {
        Extent::Count(n) => push_number(text, *n),
        Extent::Named(x) => push_name(text, x),
        Extent::More(a, b) => push_both(text, a, b"+", b),
        Extent::Less(a, b) => push_both(text, a, b"-", b),
    }
}

/// Appends two sizes with a sign between them, in parentheses.
#[cycle(extent)]
fn push_both(text: &mut Vec<u8>, a: &Extent, sign: &[u8], b: &Extent) -> Result<(), AllocError>
    ensures { OnOk result (text.new.items ≡ text.old.items
        ++ (codes "(" ++ (size_text (size_of a.now) ++ (sign.now ++ (size_text (size_of b.now) ++ codes ")"))))) }
{
    text.extend_from_slice(b"(")?;
    push_extent(text, a)?;
    text.extend_from_slice(sign)?;
    push_extent(text, b)?;
    text.extend_from_slice(b")")
}

/// What stands in front of operands.
fn opening(operand: bool) -> &'static [u8]
    ensures { result.now ≡ opening operand }
{
    if operand { b"(" } else { b"" }
}

/// What stands behind them.
fn closing(operand: bool) -> &'static [u8]
    ensures { result.now ≡ closing operand }
{
    if operand { b")" } else { b"" }
}

/// The sign of an operator.
fn two_sign(operation: Operation) -> &'static [u8]
    ensures { result.now ≡ two_sign (two_of operation) }
{
    match operation {
        Operation::Plus => b" + ",
        Operation::Minus => b" - ",
        Operation::Times => b" * ",
    }
}

/// The sign of a shift.
fn shift_sign(direction: Direction) -> &'static [u8]
    ensures { result.now ≡ shift_sign (way_of direction) }
{
    match direction {
        Direction::Left => b" << ",
        Direction::Right => b" >> ",
    }
}

/// The sign of a comparison.
fn test_sign(comparison: Comparison) -> &'static [u8]
    ensures { result.now ≡ test_sign (test_of comparison) }
{
    match comparison {
        Comparison::Same => b" == ",
        Comparison::Below => b" < ",
    }
}

/// The sign of an operator of truth values.
fn logic_sign(connective: Connective) -> &'static [u8]
    ensures { result.now ≡ logic_sign (logic_of connective) }
{
    match connective {
        Connective::Both => b" && ",
        Connective::OneOf => b" || ",
    }
}

/// Appends a number with its width.
fn push_sized(text: &mut Vec<u8>, width: u64, n: u64) -> Result<(), AllocError>
    ensures { OnOk result (text.new.items ≡ text.old.items ++ (decimal width ++ (codes "'d" ++ decimal n))) }
{
    push_number(text, width)?;
    text.extend_from_slice(b"'d")?;
    push_number(text, n)
}

/// Appends a part of a vector.
fn push_part(text: &mut Vec<u8>, name: &[u8], high: &Extent, low: &Extent) -> Result<(), AllocError>
    ensures { OnOk result (text.new.items ≡ text.old.items ++ (codes (text_of name.now) ++ (codes "["
        ++ (size_text (size_of high.now) ++ (codes ":" ++ (size_text (size_of low.now) ++ codes "]")))))) }
{
    push_name(text, name)?;
    text.extend_from_slice(b"[")?;
    push_extent(text, high)?;
    text.extend_from_slice(b":")?;
    push_extent(text, low)?;
    text.extend_from_slice(b"]")
}

/// Appends a bit of a vector, or a word of a memory.
#[cycle(expression)]
fn push_at(text: &mut Vec<u8>, name: &[u8], place: &Expression) -> Result<(), AllocError>
    ensures { OnOk result (text.new.items ≡ text.old.items
        ++ (codes (text_of name.now) ++ (codes "[" ++ (expr_text false (expr_of place.now) ++ codes "]")))) }
{
    push_name(text, name)?;
    text.extend_from_slice(b"[")?;
    push_expression(text, false, place)?;
    text.extend_from_slice(b"]")
}

/// Appends two expressions as one of the bits of both.
#[cycle(expression)]
fn push_cat(text: &mut Vec<u8>, a: &Expression, b: &Expression) -> Result<(), AllocError>
    ensures { OnOk result (text.new.items ≡ text.old.items ++ (codes "{" ++ (expr_text false (expr_of a.now)
        ++ (codes ", " ++ (expr_text false (expr_of b.now) ++ codes "}"))))) }
{
    text.extend_from_slice(b"{")?;
    push_expression(text, false, a)?;
    text.extend_from_slice(b", ")?;
    push_expression(text, false, b)?;
    text.extend_from_slice(b"}")
}

/// Appends an operator and its operand.
#[cycle(expression)]
fn push_one(
    text: &mut Vec<u8>,
    operand: bool,
    sign: &[u8],
    a: &Expression,
) -> Result<(), AllocError>
    ensures { OnOk result (text.new.items ≡ text.old.items
        ++ (opening operand ++ (sign.now ++ (expr_text true (expr_of a.now) ++ closing operand)))) }
{
    text.extend_from_slice(opening(operand))?;
    text.extend_from_slice(sign)?;
    push_expression(text, true, a)?;
    text.extend_from_slice(closing(operand))
}

/// Appends an operator between its operands.
#[cycle(expression)]
fn push_two(
    text: &mut Vec<u8>,
    operand: bool,
    a: &Expression,
    sign: &[u8],
    b: &Expression,
) -> Result<(), AllocError>
    ensures { OnOk result (text.new.items ≡ text.old.items ++ (opening operand ++ (expr_text true (expr_of a.now)
        ++ (sign.now ++ (expr_text true (expr_of b.now) ++ closing operand))))) }
{
    text.extend_from_slice(opening(operand))?;
    push_expression(text, true, a)?;
    text.extend_from_slice(sign)?;
    push_expression(text, true, b)?;
    text.extend_from_slice(closing(operand))
}

/// Appends a choice.
#[cycle(expression)]
fn push_pick(
    text: &mut Vec<u8>,
    operand: bool,
    c: &Expression,
    a: &Expression,
    b: &Expression,
) -> Result<(), AllocError>
    ensures { OnOk result (text.new.items ≡ text.old.items ++ (opening operand ++ (expr_text true (expr_of c.now)
        ++ (codes " ? " ++ (expr_text true (expr_of a.now) ++ (codes " : " ++ (expr_text true (expr_of b.now) ++ closing operand))))))) }
{
    text.extend_from_slice(opening(operand))?;
    push_expression(text, true, c)?;
    text.extend_from_slice(b" ? ")?;
    push_expression(text, true, a)?;
    text.extend_from_slice(b" : ")?;
    push_expression(text, true, b)?;
    text.extend_from_slice(closing(operand))
}

/// Appends an expression, in parentheses where it is an operand that has operands.
///
/// # Errors
///
/// It runs out of memory; what is appended by then says nothing.
#[cycle(expression)]
pub fn push_expression(text: &mut Vec<u8>, operand: bool, e: &Expression) -> Result<(), AllocError>
    ensures { OnOk result (text.new.items ≡ text.old.items ++ expr_text operand (expr_of e.now)) }
{
    match e {
        Expression::Number(n) => push_number(text, *n),
        Expression::Sized(width, n) => push_sized(text, *width, *n),
        Expression::Constant(x) => push_name(text, x),
        Expression::Name(x) => push_name(text, x),
        Expression::Bit(x, place) => push_at(text, x, place),
        Expression::Part(x, high, low) => push_part(text, x, high, low),
        Expression::Word(x, place) => push_at(text, x, place),
        Expression::Cat(a, b) => push_cat(text, a, b),
        Expression::Inverse(a) => push_one(text, operand, b"~", a),
        Expression::Two(o, a, b) => push_two(text, operand, a, two_sign(*o), b),
        Expression::Shift(o, a, b) => push_two(text, operand, a, shift_sign(*o), b),
        Expression::Test(o, a, b) => push_two(text, operand, a, test_sign(*o), b),
        Expression::Logic(o, a, b) => push_two(text, operand, a, logic_sign(*o), b),
        Expression::Not(a) => push_one(text, operand, b"!", a),
        Expression::Any(a) => push_one(text, operand, b"|", a),
        Expression::Every(a) => push_one(text, operand, b"&", a),
        Expression::Pick(c, a, b) => push_pick(text, operand, c, a, b),
    }
}

/// Appends what is assigned to.
fn push_place(text: &mut Vec<u8>, place: &Place) -> Result<(), AllocError>
    ensures { OnOk result (text.new.items ≡ text.old.items ++ target_text (target_of place.now)) }
{
    match place {
        Place::Whole(x) => push_name(text, x),
        Place::Word(x, e) => push_at(text, x, e),
    }
}

/// Appends an assignment with this sign.
pub(crate) fn push_put(
    text: &mut Vec<u8>,
    sign: &[u8],
    place: &Place,
    e: &Expression,
) -> Result<(), AllocError>
    ensures { OnOk result (text.new.items ≡ text.old.items ++ put_text sign.now (target_of place.now) (expr_of e.now)) }
{
    push_place(text, place)?;
    text.extend_from_slice(sign)?;
    push_expression(text, false, e)?;
    text.extend_from_slice(b";")
}
