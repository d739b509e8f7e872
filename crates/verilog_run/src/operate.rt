//! The operators of expressions, on numbers.

ghost use Rattle.std.specs.Prelude.{◌≡◌, ◌+◌, ◌-◌, ◌*◌, ◌^◌, IfOk, nat_eq};
ghost use Rattle.verilog_tree.specs.Meaning.{two_value, shift_value, test_value, logic_value, nonzero, flag, fit};
ghost use Rattle.verilog_tree.specs.Views.{two_of, way_of, test_of, logic_of};

use std::alloc::{AllocError, Global};
use verilog_tree::{Comparison, Connective, Direction, Operation};
use wide_numbers::{Number, left_by, left_within, low_by, ones_by, right_by};

/// The sum, cut to a width.
fn plus(alloc: Global, w: &Number, m: &Number, n: &Number) -> Result<Number, AllocError>
    ensures { IfOk result (λ r. r ≡ fit w.now (m.now + n.now)) }
{
    let all = m.plus(alloc, n)?;
    low_by(alloc, &all, w)
}

/// The product, cut to a width.
fn times(alloc: Global, w: &Number, m: &Number, n: &Number) -> Result<Number, AllocError>
    ensures { IfOk result (λ r. r ≡ fit w.now (m.now * n.now)) }
{
    let all = m.times(alloc, n)?;
    low_by(alloc, &all, w)
}

/// The number with one bit more than a width has, put before another.
fn from_end(alloc: Global, w: &Number, m: &Number) -> Result<Number, AllocError>
    ensures { IfOk result (λ r. r ≡ 2 ^ w.now + m.now) }
{
    let one = Number::of(alloc, 1)?;
    let end = left_by(alloc, &one, w)?;
    end.plus(alloc, m)
}

/// The difference, from the other end where it is below 0, cut to a width.
fn minus(alloc: Global, w: &Number, m: &Number, n: &Number) -> Result<Number, AllocError>
    ensures { IfOk result (λ r. r ≡ fit w.now (2 ^ w.now + m.now - n.now)) }
{
    let from = from_end(alloc, w, m)?;
    let all = from.minus(alloc, n)?;
    low_by(alloc, &all, w)
}

/// What an operator of two operands makes of them, at a width.
pub(crate) fn two(
    alloc: Global,
    operation: Operation,
    w: &Number,
    m: &Number,
    n: &Number,
) -> Result<Number, AllocError>
    ensures { IfOk result (λ r. r ≡ two_value (two_of operation) w.now m.now n.now) }
{
    match operation {
        Operation::Plus => plus(alloc, w, m, n),
        Operation::Minus => minus(alloc, w, m, n),
        Operation::Times => times(alloc, w, m, n),
    }
}

/// A shift, at a width.
pub(crate) fn shift(
    alloc: Global,
    direction: Direction,
    w: &Number,
    m: &Number,
    n: &Number,
) -> Result<Number, AllocError>
    ensures { IfOk result (λ r. r ≡ shift_value (way_of direction) w.now m.now n.now) }
{
    match direction {
        Direction::Left => left_within(alloc, m, n, w),
        Direction::Right => right_by(alloc, m, n),
    }
}

/// A comparison.
pub(crate) fn test(comparison: Comparison, m: &Number, n: &Number) -> bool
    ensures { result ≡ test_value (test_of comparison) m.now n.now }
{
    match comparison {
        Comparison::Same => m.is_same(n),
        Comparison::Below => m.is_below(n),
    }
}

/// An operator of truth values.
pub(crate) fn logic(connective: Connective, a: bool, b: bool) -> bool
    ensures { result ≡ logic_value (logic_of connective) a b }
{
    match connective {
        Connective::Both => a && b,
        Connective::OneOf => a || b,
    }
}

/// Whether a number is true.
pub(crate) fn is_true(n: &Number) -> bool
    ensures { result ≡ nonzero n.now }
{
    !n.is_zero()
}

/// 1 or 0.
fn digit(b: bool) -> u128
    ensures { result ≡ flag b }
{
    if b { 1 } else { 0 }
}

/// A truth value as a number.
pub(crate) fn truth(alloc: Global, b: bool) -> Result<Number, AllocError>
    ensures { IfOk result (λ r. r ≡ flag b) }
{
    Number::of(alloc, digit(b))
}

/// One number before another, which has so many bits.
pub(crate) fn cat(alloc: Global, a: &Number, b: &Number, w: &Number) -> Result<Number, AllocError>
    ensures { IfOk result (λ r. r ≡ a.now * 2 ^ w.now + b.now) }
{
    let front = left_by(alloc, a, w)?;
    front.plus(alloc, b)
}

/// The bits of a width that a number hasn't.
pub(crate) fn inverse(alloc: Global, n: &Number, w: &Number) -> Result<Number, AllocError>
    ensures { IfOk result (λ r. r ≡ 2 ^ w.now - 1 - n.now) }
{
    let ones = ones_by(alloc, w)?;
    ones.minus(alloc, n)
}

/// Whether each bit of a width is 1.
pub(crate) fn is_full(alloc: Global, n: &Number, w: &Number) -> Result<bool, AllocError>
    ensures { IfOk result (λ r. r ≡ nat_eq n.now (2 ^ w.now - 1)) }
{
    let ones = ones_by(alloc, w)?;
    let out = n.is_same(&ones);
    Ok(out)
}
