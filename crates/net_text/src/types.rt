//! Types read from the front of a text, as they are printed.
//!
//! The recursion goes no deeper than twice the height that a type may have, however many parentheses the text has. More is read than what
//! is printed, as the definition says: the caller compares the text of the type that was read.

ghost use Rattle.std.specs.Prelude.{◌≡◌, ◌≤◌, IfOk, IsTrue, ◌↔◌, Some, codes};
ghost use Rattle.std.specs.Option.{option_map};
ghost use Rattle.pcf_values.specs.Terms.{arrow, product};
ghost use Rattle.pcf_values.specs.Views.{ty_of};
ghost use Rattle.net_text.specs.NetText.{ty_height};
ghost use Rattle.net_text.specs.TypeText.{if_follows, readers, unit};

use crate::scan::behind;
use pcf_values::Ty;
use std::alloc::{AllocError, Global};

/// A type, and what stands behind it.
#[cycle(types)]
pub(crate) fn read_type<'a>(
    alloc: Global,
    text: &'a [u8],
    height: u32,
) -> Result<Option<(Box<Ty>, &'a [u8])>, AllocError>
    ensures { IfOk result (λ o. option_map (λ r. (ty_of r.0.value, r.1.now)) o ≡ (readers height).full text.now) }
{
    if height == 0 {
        return Ok(None);
    }
    let Some((left, rest)) = read_unit(alloc, text, height - 1)? else {
        return Ok(None);
    };
    let Some((left, rest)) = read_factor(alloc, left, rest, height - 1)? else {
        return Ok(None);
    };
    match behind(b" -> ", rest) {
        Some(more) => match read_type(alloc, more, height - 1)? {
            Some((right, rest)) => Ok(Some((Box::new(alloc, Ty::Arrow(left, right))?, rest))),
            None => Ok(None),
        },
        None => Ok(Some((left, rest))),
    }
}

/// `nat`, or a type in parentheses.
#[cycle(types)]
fn read_unit<'a>(
    alloc: Global,
    text: &'a [u8],
    height: u32,
) -> Result<Option<(Box<Ty>, &'a [u8])>, AllocError>
    ensures { IfOk result (λ o. option_map (λ r. (ty_of r.0.value, r.1.now)) o ≡ unit (readers height).full text.now) }
{
    if let Some(rest) = behind(b"nat", text) {
        return Ok(Some((Box::new(alloc, Ty::Nat)?, rest)));
    }
    let Some(inside) = behind(b"(", text) else {
        return Ok(None);
    };
    match read_type(alloc, inside, height)? {
        Some((ty, rest)) => match behind(b")", rest) {
            Some(rest) => Ok(Some((ty, rest))),
            None => Ok(None),
        },
        None => Ok(None),
    }
}

/// A left operand, with a right operand where a `*` follows.
#[cycle(types)]
fn read_factor<'a>(
    alloc: Global,
    left: Box<Ty>,
    text: &'a [u8],
    height: u32,
) -> Result<Option<(Box<Ty>, &'a [u8])>, AllocError>
    ensures { IfOk result
        (λ o. option_map (λ r. (ty_of r.0.value, r.1.now)) o ≡ if_follows (codes " * ") product (readers height).right
        (Some (ty_of left.value, text.now))) }
{
    match behind(b" * ", text) {
        Some(more) => match read_right(alloc, more, height)? {
            Some((right, rest)) => Ok(Some((Box::new(alloc, Ty::Product(left, right))?, rest))),
            None => Ok(None),
        },
        None => Ok(Some((left, text))),
    }
}

/// A right operand of a `*`.
#[cycle(types)]
fn read_right<'a>(
    alloc: Global,
    text: &'a [u8],
    height: u32,
) -> Result<Option<(Box<Ty>, &'a [u8])>, AllocError>
    ensures { IfOk result (λ o. option_map (λ r. (ty_of r.0.value, r.1.now)) o ≡ (readers height).right text.now) }
{
    if height == 0 {
        return Ok(None);
    }
    match read_unit(alloc, text, height)? {
        Some((left, rest)) => read_factor(alloc, left, rest, height - 1),
        None => Ok(None),
    }
}

/// Whether a type is no higher than a bound. The recursion goes no deeper than the bound.
pub(crate) fn is_within(ty: &Ty, most: u32) -> bool
    ensures { IsTrue result ↔ (ty_height (ty_of ty.now) ≤ most) }
{
    if most == 0 {
        return false;
    }
    match ty {
        Ty::Nat => true,
        Ty::Arrow(a, b) | Ty::Product(a, b) => is_within(a, most - 1) && is_within(b, most - 1),
    }
}
