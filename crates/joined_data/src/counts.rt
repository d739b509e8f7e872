//! The widths and counts of a module.

ghost use Rattle.std.specs.Prelude.{◌≡◌, ◌≤◌, ◌<◌, suc, length, map};
ghost use Rattle.circuit_module.specs.Sizes.{bits_for};
ghost use Rattle.joined_module.specs.Fields.{bits_upto, most_by, sig_count, box_count, fork_count, word_count, tag_bits, slots_from};
ghost use Rattle.joined_module.specs.Fields.{most_tag, seen_tag};
ghost use Rattle.joined_module.specs.Module.{has_product};
ghost use Rattle.joined_data.specs.Views.{row_view};

use crate::figures::{Figure, most};
use crate::flags::multiplies_in;
use crate::origins::Slot;
use crate::rows::Row;

/// The bits that tell so many numbers and one more apart.
fn bits_above(n: u64) -> u64
    ensures bits { result ≡ bits_for (suc n) }
    ensures few { result ≤ 64 }
{
    let mut bits = 0;
    let mut power: u128 = 1;
    while power <= u128::from(n) {
        power = 2 * power;
        bits = bits + 1;
    }
    bits
}

/// The bits for numbers up to this one, of which there is one at least.
pub fn bits_upto(n: u64) -> u64
    ensures bits { result ≡ bits_upto n }
    ensures some { 0 < result }
    ensures few { result ≤ 64 }
{
    let bits = bits_above(n);
    if bits == 0 { 1 } else { bits }
}

/// Whether there is a product.
pub fn has_product(rows: &[Row]) -> bool
    ensures { result ≡ has_product (map row_view rows.now) }
{
    match rows {
        [] => false,
        [first, rest @ ..] => multiplies_in(first.worth) || has_product(rest),
    }
}
