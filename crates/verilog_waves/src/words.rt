//! The words of a dump: names, numbers, codes and values.

ghost use Rattle.std.specs.Prelude.{◌≡◌, ◌+◌, ◌-◌, ◌++◌, nat_eq, OnOk, codes, decimal};
ghost use Rattle.verilog_tree.specs.Meaning.{chosen, flag};
ghost use Rattle.verilog_tree.specs.Names.{text_of};
ghost use Rattle.verilog_waves.specs.Dump.{code, range_text, bits_text, digits_text, value_text};

use itoa::Buffer;
use std::alloc::AllocError;
use verilog_tree::{Expression, push_expression};
use wide_numbers::Number;

/// Appends a name.
pub(crate) fn push_name(text: &mut Vec<u8>, name: &[u8]) -> Result<(), AllocError>
    ensures { OnOk result (text.new.items ≡ text.old.items ++ codes (text_of name.now)) }
{
    push_expression(text, false, &Expression::Name(name))
}

/// Appends a number.
pub(crate) fn push_number(text: &mut Vec<u8>, n: u128) -> Result<(), AllocError>
    ensures { OnOk result (text.new.items ≡ text.old.items ++ decimal n) }
{
    let mut buffer = Buffer::new();
    text.extend_from_slice(buffer.format(n).as_bytes())
}

/// Appends the code of a name at a place.
pub(crate) fn push_code(text: &mut Vec<u8>, place: usize) -> Result<(), AllocError>
    ensures { OnOk result (text.new.items ≡ text.old.items ++ code place) }
{
    for n in 0..place / 94 {
        text.push(b'~')?;
    }
    text.push(33 + (place % 94) as u8)?;
    Ok(())
}

/// Appends the places of a vector's bits.
pub(crate) fn push_range(text: &mut Vec<u8>, bits: usize) -> Result<(), AllocError>
    ensures { OnOk result (text.new.items ≡ text.old.items ++ range_text bits) }
{
    if bits == 1 {
        return Ok(());
    }
    text.extend_from_slice(b" [")?;
    push_number(text, highest(bits) as u128)?;
    text.extend_from_slice(b":0]")
}

/// The place of the highest bit.
fn highest(bits: usize) -> usize
    ensures { result ≡ bits - 1 }
{
    if bits == 0 { 0 } else { bits - 1 }
}

/// The digit of a bit.
fn digit(bit: bool) -> u8
    ensures { result ≡ 48 + flag bit }
{
    if bit { b'1' } else { b'0' }
}

/// Appends the lowest bits of a number, the highest first.
fn push_bits(text: &mut Vec<u8>, bits: usize, n: &Number) -> Result<(), AllocError>
    ensures { OnOk result (text.new.items ≡ text.old.items ++ bits_text bits n.now) }
{
    let mut left = bits;
    while left > 0 {
        left -= 1;
        text.push(digit(n.bit(left)))?;
    }
    Ok(())
}

/// How many bits stand behind the zeros in front.
fn highest_one(bits: usize, n: &Number) -> usize
    ensures { chosen (nat_eq result 0) (codes "0") (bits_text result n.now) ≡ digits_text bits n.now }
{
    let mut left = bits;
    while left > 0 {
        if n.bit(left - 1) {
            return left;
        }
        left -= 1;
    }
    0
}

/// Appends the lowest bits of a number without the zeros in front, or one zero.
fn push_digits(text: &mut Vec<u8>, bits: usize, n: &Number) -> Result<(), AllocError>
    ensures { OnOk result (text.new.items ≡ text.old.items ++ digits_text bits n.now) }
{
    let left = highest_one(bits, n);
    if left == 0 {
        return text.extend_from_slice(b"0");
    }
    push_bits(text, left, n)
}

/// Appends the value of so many bits.
pub(crate) fn push_value(text: &mut Vec<u8>, bits: usize, n: &Number) -> Result<(), AllocError>
    ensures { OnOk result (text.new.items ≡ text.old.items ++ value_text bits n.now) }
{
    if bits == 1 {
        return push_digits(text, bits, n);
    }
    text.extend_from_slice(b"b")?;
    push_digits(text, bits, n)?;
    text.extend_from_slice(b" ")
}
