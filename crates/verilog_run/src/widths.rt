//! How many bits expressions have by themselves.

ghost use Rattle.std.specs.Prelude.{◌≡◌, suc, max, ◌+◌, ◌-◌, map, IfOk};
ghost use Rattle.verilog_tree.specs.Meaning.{amount as amount_of, bits as own_bits};
ghost use Rattle.verilog_tree.specs.Meaning.{widest as widest_of, widest_arm as widest_in};
ghost use Rattle.verilog_tree.specs.Views.{arms_of, expr_of, size_of};
ghost use Rattle.verilog_run.specs.Scopes.{scope_of};

use crate::scene::Scene;
use std::alloc::{AllocError, Global};
use verilog_tree::{Cases, Expression, Extent};
use wide_numbers::Number;

/// The greater of two numbers.
pub(crate) fn greater<'n>(a: &'n Number, b: &'n Number) -> &'n Number
    ensures { result.now ≡ max a.now b.now }
{
    if a.is_below(b) { b } else { a }
}

/// The same of numbers that nobody needs any more.
fn wider(a: Number, b: Number) -> Number
    ensures { result ≡ max a b }
{
    if a.is_below(&b) { b } else { a }
}

/// From one place down to another, how many there are.
fn between(alloc: Global, high: &Number, low: &Number) -> Result<Number, AllocError>
    ensures { IfOk result (λ n. n ≡ suc (high.now - low.now)) }
{
    let one = Number::of(alloc, 1)?;
    let apart = high.minus(alloc, low)?;
    apart.plus(alloc, &one)
}

/// How many bits a part of a vector has, from one place down to another.
pub(crate) fn part_bits(
    scene: &Scene,
    high: &Extent<'_>,
    low: &Extent<'_>,
) -> Result<Number, AllocError>
    ensures { IfOk result (λ n. n
        ≡ suc (amount_of (scope_of scene.now).param (size_of high.now) - amount_of (scope_of scene.now).param (size_of low.now))) }
{
    let h = scene.amount(high)?;
    let l = scene.amount(low)?;
    between(scene.alloc, &h, &l)
}

/// How many bits two expressions have together.
#[cycle(bits)]
fn both_bits(scene: &Scene, a: &Expression<'_>, b: &Expression<'_>) -> Result<Number, AllocError>
    ensures { IfOk result (λ n. n ≡ own_bits (scope_of scene.now) (expr_of a.now) + own_bits (scope_of scene.now) (expr_of b.now)) }
{
    let m = bits(scene, a)?;
    let n = bits(scene, b)?;
    m.plus(scene.alloc, &n)
}

/// How many bits the wider of two expressions has.
#[cycle(bits)]
pub(crate) fn wider_bits(
    scene: &Scene,
    a: &Expression<'_>,
    b: &Expression<'_>,
) -> Result<Number, AllocError>
    ensures { IfOk result (λ n. n
        ≡ max (own_bits (scope_of scene.now) (expr_of a.now)) (own_bits (scope_of scene.now) (expr_of b.now))) }
{
    let m = bits(scene, a)?;
    let n = bits(scene, b)?;
    Ok(wider(m, n))
}

/// How many bits an expression has by itself.
#[cycle(bits)]
pub(crate) fn bits(scene: &Scene, e: &Expression<'_>) -> Result<Number, AllocError>
    ensures { IfOk result (λ n. n ≡ own_bits (scope_of scene.now) (expr_of e.now)) }
{
    match e {
        Expression::Number(_) => Number::of(scene.alloc, 32),
        Expression::Sized(w, _) => Number::of(scene.alloc, *w as u128),
        Expression::Constant(x) => scene.width(x),
        Expression::Name(x) => scene.width(x),
        Expression::Bit(_, _) => Number::of(scene.alloc, 1),
        Expression::Part(_, h, l) => part_bits(scene, h, l),
        Expression::Word(m, _) => scene.width(m),
        Expression::Cat(a, b) => both_bits(scene, a, b),
        Expression::Inverse(a) => bits(scene, a),
        Expression::Two(_, a, b) => wider_bits(scene, a, b),
        Expression::Shift(_, a, _) => bits(scene, a),
        Expression::Test(_, _, _) => Number::of(scene.alloc, 1),
        Expression::Logic(_, _, _) => Number::of(scene.alloc, 1),
        Expression::Not(_) => Number::of(scene.alloc, 1),
        Expression::Any(_) => Number::of(scene.alloc, 1),
        Expression::Every(_) => Number::of(scene.alloc, 1),
        Expression::Pick(_, a, b) => wider_bits(scene, a, b),
    }
}

/// The widest of so many bits and some expressions.
fn widest(scene: &Scene, w: Number, labels: &[Expression<'_>]) -> Result<Number, AllocError>
    ensures { IfOk result (λ n. n ≡ widest_of (scope_of scene.now) w (map expr_of labels.now)) }
{
    match labels {
        [] => Ok(w),
        [first, rest @ ..] => {
            let n = bits(scene, first)?;
            widest(scene, wider(w, n), rest)
        }
    }
}

/// The widest of so many bits and all labels of a case.
fn widest_arm(scene: &Scene, w: Number, arms: &Cases<'_>) -> Result<Number, AllocError>
    ensures { IfOk result (λ n. n ≡ widest_in (scope_of scene.now) w (arms_of arms.now)) }
{
    match arms {
        Cases::Otherwise(_) => Ok(w),
        Cases::Arm(labels, _, _, rest) => {
            let n = widest(scene, w, labels)?;
            widest_arm(scene, n, rest)
        }
    }
}

/// The widest of a case's expression and all of its labels.
pub(crate) fn widest_case(
    scene: &Scene,
    e: &Expression<'_>,
    arms: &Cases<'_>,
) -> Result<Number, AllocError>
    ensures { IfOk result (λ n. n
        ≡ widest_in (scope_of scene.now) (own_bits (scope_of scene.now) (expr_of e.now)) (arms_of arms.now)) }
{
    let w = bits(scene, e)?;
    widest_arm(scene, w, arms)
}
