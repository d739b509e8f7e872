//! The kinds of what rows have.

ghost use Rattle.std.specs.Prelude.{◌≡◌, [], OnOk, IfOk, map};
ghost use Rattle.joined_module.specs.Fields.{kinds_at, with_from, operands_at, with_operand};
ghost use Rattle.joined_data.specs.Views.{origin_view, origin_if, operand_view, operand_if, row_view};
ghost use Rattle.joined_data.specs.Figures.{slot_view, input_view};

use crate::operands::{Side, input_operand, kind_of_operand, operand_place};
use crate::origins::{Slot, kind_of_origin, origin_place, slot_origin};
use crate::rows::{Operand, Origin, Row};
use bumpalo::Bump;
use std::alloc::{AllocError, Global};

/// Puts an origin's kind in front, unless it is there.
fn with_origin(kinds: &mut Vec<Origin>, o: Option<Origin>) -> Result<(), AllocError>
    ensures { OnOk result (map origin_view kinds.new.items ≡ with_from (origin_if o) (map origin_view kinds.old.items)) }
{
    match o {
        None => Ok(()),
        Some(o) => {
            let kind = kind_of_origin(o);
            let list = kinds.as_slice();
            let there = origin_place(list, kind) < list.len() as u64;
            if !there {
                kinds.insert(0, kind)?;
            }
            Ok(())
        }
    }
}

/// Puts the kinds in front that rows have at a slot.
fn add_origins(kinds: &mut Vec<Origin>, slot: Slot, rows: &[Row]) -> Result<(), AllocError>
    requires none { kinds.old.items ≡ [] }
    ensures { OnOk result (map origin_view kinds.new.items ≡ kinds_at (slot_view slot) (map row_view rows.now)) }
{
    match rows {
        [] => Ok(()),
        [first, rest @ ..] => {
            add_origins(kinds, slot, rest)?;
            with_origin(kinds, slot_origin(slot, first))
        }
    }
}

/// The kinds of what rows have at a slot.
///
/// # Errors
///
/// `AllocError` where there is no memory for it.
pub fn origins_at<'a>(
    alloc: Global,
    bump: &'a Bump,
    slot: Slot,
    rows: &[Row],
) -> Result<&'a [Origin], AllocError>
    ensures { IfOk result (λ k. map origin_view k.now ≡ kinds_at (slot_view slot) (map row_view rows.now)) }
{
    let mut kinds = Vec::new(alloc);
    add_origins(&mut kinds, slot, rows)?;
    let kept = bump.try_alloc_slice_copy(kinds.as_slice())?;
    Ok(kept)
}

/// Puts an operand's kind in front, unless it is there.
fn with_operand(kinds: &mut Vec<Operand>, x: Option<Operand>) -> Result<(), AllocError>
    ensures { OnOk result (map operand_view kinds.new.items ≡ with_operand (operand_if x) (map operand_view kinds.old.items)) }
{
    match x {
        None => Ok(()),
        Some(x) => {
            let kind = kind_of_operand(x);
            let list = kinds.as_slice();
            let there = operand_place(list, kind) < list.len() as u64;
            if !there {
                kinds.insert(0, kind)?;
            }
            Ok(())
        }
    }
}

/// Puts the kinds of operands in front that rows have.
fn add_operands(kinds: &mut Vec<Operand>, side: Side, rows: &[Row]) -> Result<(), AllocError>
    requires none { kinds.old.items ≡ [] }
    ensures { OnOk result (map operand_view kinds.new.items ≡ operands_at (input_view side) (map row_view rows.now)) }
{
    match rows {
        [] => Ok(()),
        [first, rest @ ..] => {
            add_operands(kinds, side, rest)?;
            with_operand(kinds, input_operand(side, first))
        }
    }
}

/// The kinds of operands that rows have.
///
/// # Errors
///
/// `AllocError` where there is no memory for it.
pub fn operands_at<'a>(
    alloc: Global,
    bump: &'a Bump,
    side: Side,
    rows: &[Row],
) -> Result<&'a [Operand], AllocError>
    ensures { IfOk result (λ k. map operand_view k.now ≡ operands_at (input_view side) (map row_view rows.now)) }
{
    let mut kinds = Vec::new(alloc);
    add_operands(&mut kinds, side, rows)?;
    let kept = bump.try_alloc_slice_copy(kinds.as_slice())?;
    Ok(kept)
}
