//! What the number of a register stands for.

ghost use Rattle.std.specs.Prelude.{◌≡◌, ◌+◌, ◌*◌, ◌<◌, ◌≤◌, ◌^◌, IfOk, IfSome, IfNone};
ghost use Rattle.circuit_module.specs.Stands.{Small, value_number};

use pcf_values::Val;
use std::alloc::{AllocError, Global};
use wide_numbers::Number;

/// A number of two halves.
fn joined(high: usize, low: usize) -> u64
    requires first { high < 2 ^ 32 }
    requires second { low < 2 ^ 32 }
    ensures { result ≡ high * 2 ^ 32 + low }
{
    (high as u64) * 4294967296 + low as u64
}

/// A number below 2^64.
pub(crate) fn small(alloc: Global, n: &Number) -> Result<Option<u64>, AllocError>
    ensures some { IfOk result (λ o. IfSome o (λ m. (m ≡ n.now) × (m < 2 ^ 64))) }
    ensures none { IfOk result (λ o. IfNone o (2 ^ 64 ≤ n.now)) }
{
    let high = n.right(alloc, 32)?;
    let low = n.low(alloc, 32)?;
    match high.within(4294967296) {
        Some(h) => match low.within(4294967296) {
            Some(l) => Ok(Some(joined(h, l))),
            None => Ok(None),
        },
        None => Ok(None),
    }
}

/// The number that says overflow.
fn overflow(alloc: Global) -> Result<Number, AllocError>
    ensures { IfOk result (λ n. n ≡ 2 ^ 64) }
{
    Number::of(alloc, 18446744073709551616)
}

/// The value that a number stands for.
pub(crate) fn value_of(alloc: Global, n: &Number) -> Result<Option<Val>, AllocError>
    ensures some { IfOk result (λ o. IfSome o (λ v. (value_number v ≡ n.now) × Small v)) }
    ensures none { IfOk result (λ o. IfNone o (2 ^ 64 < n.now)) }
{
    match small(alloc, n)? {
        Some(m) => Ok(Some(Val::Number(m))),
        None => {
            let end = overflow(alloc)?;
            if n.is_same(&end) {
                Ok(Some(Val::Overflow))
            } else {
                Ok(None)
            }
        }
    }
}
