//! What expressions come to, and what assignments assign.

ghost use Rattle.std.specs.Prelude.{◌≡◌, suc, ◌+◌, ◌-◌, ◌*◌, ◌/◌, ◌%◌, ◌^◌, map, IfOk, nat_eq};
ghost use Rattle.verilog_tree.specs.Meaning.{fit, flag, own as own_value, bit_in as bit_read};
ghost use Rattle.verilog_tree.specs.Meaning.{part_in as part_read};
ghost use Rattle.verilog_tree.specs.Meaning.{word_in as word_read, amount as amount_of, value as value_of};
ghost use Rattle.verilog_tree.specs.Meaning.{bits as own_bits};
ghost use Rattle.verilog_tree.specs.Meaning.{assigned as assigned_of, labelled as labelled_of};
ghost use Rattle.verilog_run.specs.Parts.{compared_at};
ghost use Rattle.verilog_tree.specs.Names.{text_of};
ghost use Rattle.verilog_tree.specs.Meaning.{chosen, logic_value, nonzero, shift_value, two_value};
ghost use Rattle.verilog_tree.specs.Views.{expr_of, logic_of, size_of, test_of, two_of, way_of};
ghost use Rattle.verilog_run.specs.Held.{held};
ghost use Rattle.verilog_run.specs.Scopes.{scope_of};

use crate::contents::Contents;
use crate::operate::{cat, inverse, is_full, is_true, logic, shift, test, truth, two};
use crate::scene::Scene;
use crate::widths::{bits, greater, part_bits, wider_bits};
use std::alloc::{AllocError, Global};
use verilog_tree::{Comparison, Connective, Direction, Expression, Extent, Operation};
use wide_numbers::{Number, low_by, right_by};

/// A number, cut to its size.
fn sized(alloc: Global, w: u64, n: u64) -> Result<Number, AllocError>
    ensures { IfOk result (λ m. m ≡ fit w n) }
{
    let all = Number::of(alloc, n as u128)?;
    all.low(alloc, w as usize)
}

/// A parameter, cut to its declared width.
fn constant(scene: &Scene, name: &[u8]) -> Result<Number, AllocError>
    ensures { IfOk result (λ m. m ≡ fit ((scope_of scene.now).width (text_of name.now))
        ((scope_of scene.now).param (text_of name.now))) }
{
    let all = scene.param(name)?;
    let w = scene.width(name)?;
    low_by(scene.alloc, &all, &w)
}

/// A bit of a number.
fn bit_of(alloc: Global, n: &Number, at: &Number) -> Result<Number, AllocError>
    ensures { IfOk result (λ m. m ≡ n.now / 2 ^ at.now % 2) }
{
    let from = right_by(alloc, n, at)?;
    from.low(alloc, 1)
}

/// A part of a number.
fn part_of(alloc: Global, n: &Number, start: &Number, count: &Number) -> Result<Number, AllocError>
    ensures { IfOk result (λ m. m ≡ fit count.now (n.now / 2 ^ start.now)) }
{
    let from = right_by(alloc, n, start)?;
    low_by(alloc, &from, count)
}

/// A bit of a vector, where it has one.
fn bit_in(scene: &Scene, store: &Contents, name: &[u8], at: &Number) -> Result<Number, AllocError>
    ensures { IfOk result (λ m. m ≡ bit_read (held store.now) ((scope_of scene.now).width (text_of name.now))
        (text_of name.now) at.now) }
{
    let w = scene.width(name)?;
    if at.is_below(&w) {
        let all = store.vector(scene.alloc, name)?;
        return bit_of(scene.alloc, &all, at);
    }
    Ok(Number::zero(scene.alloc))
}

/// A part of a vector from a place on, where it is there.
fn part_from(
    scene: &Scene,
    store: &Contents,
    name: &[u8],
    high: &Extent<'_>,
    low: &Extent<'_>,
) -> Result<Number, AllocError>
    ensures { IfOk result (λ m. m ≡ fit (suc (amount_of (scope_of scene.now).param (size_of high.now)
        - amount_of (scope_of scene.now).param (size_of low.now)))
        ((held store.now).vec (text_of name.now) / 2 ^ amount_of (scope_of scene.now).param (size_of low.now))) }
{
    let l = scene.amount(low)?;
    let count = part_bits(scene, high, low)?;
    let all = store.vector(scene.alloc, name)?;
    part_of(scene.alloc, &all, &l, &count)
}

/// A part of a vector, where it has all of its bits.
fn part_in(
    scene: &Scene,
    store: &Contents,
    name: &[u8],
    high: &Extent<'_>,
    low: &Extent<'_>,
) -> Result<Number, AllocError>
    ensures { IfOk result (λ m. m ≡ part_read (held store.now) ((scope_of scene.now).width (text_of name.now)) (text_of name.now)
        (amount_of (scope_of scene.now).param (size_of high.now)) (amount_of (scope_of scene.now).param (size_of low.now))) }
{
    let w = scene.width(name)?;
    let h = scene.amount(high)?;
    if h.is_below(&w) {
        return part_from(scene, store, name, high, low);
    }
    Ok(Number::zero(scene.alloc))
}

/// A word of a memory, where it has one.
fn word_in(scene: &Scene, store: &Contents, name: &[u8], at: &Number) -> Result<Number, AllocError>
    ensures { IfOk result (λ m. m ≡ word_read (held store.now) ((scope_of scene.now).words (text_of name.now))
        (text_of name.now) at.now) }
{
    let count = scene.words(name)?;
    if at.is_below(&count) {
        return store.word(scene.alloc, name, at);
    }
    Ok(Number::zero(scene.alloc))
}

/// What an expression comes to at its own width.
#[cycle(value)]
pub(crate) fn own(scene: &Scene, store: &Contents, e: &Expression<'_>) -> Result<Number, AllocError>
    ensures { IfOk result (λ n. n ≡ own_value (scope_of scene.now) (held store.now) (expr_of e.now)) }
{
    let w = bits(scene, e)?;
    value(scene, store, &w, e)
}

/// One expression before another.
#[cycle(value)]
fn joined(
    scene: &Scene,
    store: &Contents,
    a: &Expression<'_>,
    b: &Expression<'_>,
) -> Result<Number, AllocError>
    ensures { IfOk result (λ n. n ≡ own_value (scope_of scene.now) (held store.now) (expr_of a.now) * 2 ^ own_bits
        (scope_of scene.now) (expr_of b.now)
        + own_value (scope_of scene.now) (held store.now) (expr_of b.now)) }
{
    let m = own(scene, store, a)?;
    let n = own(scene, store, b)?;
    let w = bits(scene, b)?;
    cat(scene.alloc, &m, &n, &w)
}

/// A comparison of two expressions, at the wider's width.
#[cycle(value)]
fn compared(
    scene: &Scene,
    store: &Contents,
    comparison: Comparison,
    a: &Expression<'_>,
    b: &Expression<'_>,
) -> Result<Number, AllocError>
    ensures { IfOk result (λ n. n ≡ compared_at (scope_of scene.now) (held store.now) (test_of comparison) (expr_of a.now)
        (expr_of b.now)) }
{
    let w = wider_bits(scene, a, b)?;
    let m = value(scene, store, &w, a)?;
    let n = value(scene, store, &w, b)?;
    truth(scene.alloc, test(comparison, &m, &n))
}

/// Whether each bit of an expression is 1.
#[cycle(value)]
fn full(scene: &Scene, store: &Contents, a: &Expression<'_>) -> Result<Number, AllocError>
    ensures { IfOk result (λ n. n ≡ flag
        (nat_eq (own_value (scope_of scene.now) (held store.now) (expr_of a.now))
        (2 ^ own_bits (scope_of scene.now) (expr_of a.now) - 1))) }
{
    let n = own(scene, store, a)?;
    let w = bits(scene, a)?;
    let all = is_full(scene.alloc, &n, &w)?;
    truth(scene.alloc, all)
}

/// A bit of a vector at the place that an expression tells.
#[cycle(value)]
fn bit_told(
    scene: &Scene,
    store: &Contents,
    name: &[u8],
    at: &Expression<'_>,
) -> Result<Number, AllocError>
    ensures { IfOk result (λ n. n ≡ bit_read (held store.now) ((scope_of scene.now).width (text_of name.now)) (text_of name.now)
        (own_value (scope_of scene.now) (held store.now) (expr_of at.now))) }
{
    let i = own(scene, store, at)?;
    bit_in(scene, store, name, &i)
}

/// A word of a memory at the place that an expression tells.
#[cycle(value)]
fn word_told(
    scene: &Scene,
    store: &Contents,
    name: &[u8],
    at: &Expression<'_>,
) -> Result<Number, AllocError>
    ensures { IfOk result (λ n. n ≡ word_read (held store.now) ((scope_of scene.now).words (text_of name.now)) (text_of name.now)
        (own_value (scope_of scene.now) (held store.now) (expr_of at.now))) }
{
    let i = own(scene, store, at)?;
    word_in(scene, store, name, &i)
}

/// The bits that an expression hasn't.
#[cycle(value)]
fn inverted(
    scene: &Scene,
    store: &Contents,
    w: &Number,
    a: &Expression<'_>,
) -> Result<Number, AllocError>
    ensures { IfOk result (λ n. n ≡ 2 ^ w.now - 1 - value_of (scope_of scene.now) (held store.now) w.now (expr_of a.now)) }
{
    let n = value(scene, store, w, a)?;
    inverse(scene.alloc, &n, w)
}

/// An operator of two operands at the width around them.
#[cycle(value)]
fn worked(
    scene: &Scene,
    store: &Contents,
    operation: Operation,
    w: &Number,
    a: &Expression<'_>,
    b: &Expression<'_>,
) -> Result<Number, AllocError>
    ensures { IfOk result (λ n. n ≡ two_value (two_of operation) w.now
        (value_of (scope_of scene.now) (held store.now) w.now (expr_of a.now))
        (value_of (scope_of scene.now) (held store.now) w.now (expr_of b.now))) }
{
    let m = value(scene, store, w, a)?;
    let n = value(scene, store, w, b)?;
    two(scene.alloc, operation, w, &m, &n)
}

/// A shift at the width around it.
#[cycle(value)]
fn shifted(
    scene: &Scene,
    store: &Contents,
    direction: Direction,
    w: &Number,
    a: &Expression<'_>,
    b: &Expression<'_>,
) -> Result<Number, AllocError>
    ensures { IfOk result (λ n. n ≡ shift_value (way_of direction) w.now
        (value_of (scope_of scene.now) (held store.now) w.now (expr_of a.now))
        (own_value (scope_of scene.now) (held store.now) (expr_of b.now))) }
{
    let m = value(scene, store, w, a)?;
    let n = own(scene, store, b)?;
    shift(scene.alloc, direction, w, &m, &n)
}

/// Two truth values together.
#[cycle(value)]
fn connected(
    scene: &Scene,
    store: &Contents,
    connective: Connective,
    a: &Expression<'_>,
    b: &Expression<'_>,
) -> Result<Number, AllocError>
    ensures { IfOk result (λ n. n ≡ flag
        (logic_value (logic_of connective) (nonzero (own_value (scope_of scene.now) (held store.now) (expr_of a.now)))
        (nonzero (own_value (scope_of scene.now) (held store.now) (expr_of b.now))))) }
{
    let m = own(scene, store, a)?;
    let n = own(scene, store, b)?;
    truth(scene.alloc, logic(connective, is_true(&m), is_true(&n)))
}

/// Whether an expression is 0.
#[cycle(value)]
fn negated(scene: &Scene, store: &Contents, a: &Expression<'_>) -> Result<Number, AllocError>
    ensures { IfOk result (λ n. n ≡ flag (nat_eq (own_value (scope_of scene.now) (held store.now) (expr_of a.now)) 0)) }
{
    let n = own(scene, store, a)?;
    truth(scene.alloc, n.is_zero())
}

/// Whether one bit of an expression is 1.
#[cycle(value)]
fn reduced(scene: &Scene, store: &Contents, a: &Expression<'_>) -> Result<Number, AllocError>
    ensures { IfOk result (λ n. n ≡ flag (nonzero (own_value (scope_of scene.now) (held store.now) (expr_of a.now)))) }
{
    let n = own(scene, store, a)?;
    truth(scene.alloc, is_true(&n))
}

/// One of two expressions, by a third.
#[cycle(value)]
fn picked(
    scene: &Scene,
    store: &Contents,
    w: &Number,
    c: &Expression<'_>,
    a: &Expression<'_>,
    b: &Expression<'_>,
) -> Result<Number, AllocError>
    ensures { IfOk result (λ n. n ≡ chosen (nonzero (own_value (scope_of scene.now) (held store.now) (expr_of c.now)))
        (value_of (scope_of scene.now) (held store.now) w.now (expr_of a.now))
        (value_of (scope_of scene.now) (held store.now) w.now (expr_of b.now))) }
{
    let n = own(scene, store, c)?;
    if is_true(&n) {
        return value(scene, store, w, a);
    }
    value(scene, store, w, b)
}

/// What an expression comes to where so many bits are wanted.
#[cycle(value)]
pub(crate) fn value(
    scene: &Scene,
    store: &Contents,
    w: &Number,
    e: &Expression<'_>,
) -> Result<Number, AllocError>
    ensures { IfOk result (λ n. n ≡ value_of (scope_of scene.now) (held store.now) w.now (expr_of e.now)) }
{
    match e {
        Expression::Number(n) => Number::of(scene.alloc, *n as u128),
        Expression::Sized(k, n) => sized(scene.alloc, *k, *n),
        Expression::Constant(x) => constant(scene, x),
        Expression::Name(x) => store.vector(scene.alloc, x),
        Expression::Bit(x, i) => bit_told(scene, store, x, i),
        Expression::Part(x, h, l) => part_in(scene, store, x, h, l),
        Expression::Word(m, i) => word_told(scene, store, m, i),
        Expression::Cat(a, b) => joined(scene, store, a, b),
        Expression::Inverse(a) => inverted(scene, store, w, a),
        Expression::Two(o, a, b) => worked(scene, store, *o, w, a, b),
        Expression::Shift(o, a, b) => shifted(scene, store, *o, w, a, b),
        Expression::Test(o, a, b) => compared(scene, store, *o, a, b),
        Expression::Logic(o, a, b) => connected(scene, store, *o, a, b),
        Expression::Not(a) => negated(scene, store, a),
        Expression::Any(a) => reduced(scene, store, a),
        Expression::Every(a) => full(scene, store, a),
        Expression::Pick(c, a, b) => picked(scene, store, w, c, a, b),
    }
}

/// What an assignment to a vector, or to a word of a memory, assigns.
pub(crate) fn assigned(
    scene: &Scene,
    read: &Contents,
    name: &[u8],
    e: &Expression<'_>,
) -> Result<Number, AllocError>
    ensures { IfOk result (λ n. n ≡ assigned_of (scope_of scene.now) (held read.now) ((scope_of scene.now).width (text_of name.now))
        (expr_of e.now)) }
{
    let w = scene.width(name)?;
    let own_width = bits(scene, e)?;
    let told = value(scene, read, greater(&w, &own_width), e)?;
    low_by(scene.alloc, &told, &w)
}

/// Whether one of the labels is a number.
pub(crate) fn labelled(
    scene: &Scene,
    read: &Contents,
    w: &Number,
    n: &Number,
    labels: &[Expression<'_>],
) -> Result<bool, AllocError>
    ensures { IfOk result (λ b. b ≡ labelled_of (scope_of scene.now) (held read.now) w.now n.now (map expr_of labels.now)) }
{
    match labels {
        [] => Ok(false),
        [first, rest @ ..] => {
            let m = value(scene, read, w, first)?;
            if n.is_same(&m) {
                return Ok(true);
            }
            labelled(scene, read, w, n, rest)
        }
    }
}
