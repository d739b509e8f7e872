//! The text of a bench for the circuit of a program.

ghost use Rattle.std.specs.Prelude.{◌≡◌, ◌++◌, OnOk, IfOk};
ghost use Rattle.circuit_calls.specs.BenchText.{value_text, bench_numbers, bench_body, bench_text};

use crate::bench_parts as parts;
use crate::number::push_number;
use pcf_values::Val;
use std::alloc::{AllocError, Global};

/// The text of a bench for the circuit of this name, of a program that has this value after so many moves.
///
/// # Errors
///
/// `AllocError` where there is no memory for the text.
pub fn print_bench(
    alloc: Global,
    name: &[u8],
    value: Val,
    moves: u32,
) -> Result<Vec<u8>, AllocError>
    ensures { IfOk result (λ v. v.items ≡ bench_text name.now value moves) }
{
    let mut text = Vec::new(alloc);
    push_bench(&mut text, name, value, moves)?;
    Ok(text)
}

/// Appends this text.
#[tactic(auto, unfolding(crate::specs::BenchText::bench_text))]
fn push_bench(text: &mut Vec<u8>, name: &[u8], value: Val, moves: u32) -> Result<(), AllocError>
    ensures { OnOk result (text.new.items ≡ text.old.items ++ bench_text name.now value moves) }
{
    text.extend_from_slice(parts::head())?;
    text.extend_from_slice(name)?;
    push_numbers(text, value, moves)?;
    push_body(text, name)
}

/// Appends a value as a number of 65 bits.
fn push_value(text: &mut Vec<u8>, value: Val) -> Result<(), AllocError>
    ensures { OnOk result (text.new.items ≡ text.old.items ++ value_text value) }
{
    match value {
        Val::Number(n) => push_number(text, b"", n),
        Val::Overflow => text.extend_from_slice(b"18446744073709551616"),
    }
}

/// Appends the numbers of the bench for a program of this value and so many moves.
#[tactic(auto, unfolding(crate::specs::BenchText::bench_numbers))]
fn push_numbers(text: &mut Vec<u8>, value: Val, moves: u32) -> Result<(), AllocError>
    ensures { OnOk result (text.new.items ≡ text.old.items ++ bench_numbers value moves) }
{
    text.extend_from_slice(parts::begin())?;
    push_value(text, value)?;
    push_number(text, parts::between(), moves.into())
}

/// Appends what stands behind them.
#[tactic(auto, unfolding(crate::specs::BenchText::bench_body))]
fn push_body(text: &mut Vec<u8>, name: &[u8]) -> Result<(), AllocError>
    ensures { OnOk result (text.new.items ≡ text.old.items ++ bench_body name.now) }
{
    text.extend_from_slice(parts::wires())?;
    text.extend_from_slice(name)?;
    text.extend_from_slice(parts::circuit())?;
    text.extend_from_slice(parts::run())?;
    text.extend_from_slice(parts::told())?;
    text.extend_from_slice(parts::last())
}
