//! All slots of a table.

ghost use Rattle.std.specs.Prelude.{◌≡◌, ◌<◌, ◌+◌, ◌++◌, ◌^◌, [], ◌∷◌, OnOk, IfOk, map};
ghost use Rattle.verilog_tree.specs.Names.{text_of};
ghost use Rattle.joined_module.specs.Names.{by_name, tag_name};
ghost use Rattle.joined_module.specs.Fields.{sig_count, box_count, fork_count, word_count, slots_from, all_slots, most_tag, most_by};
ghost use Rattle.joined_data.specs.Views.{row_view};
ghost use Rattle.joined_data.specs.Figures.{slot_view, figure_at};
ghost use Rattle.joined_fields.specs.Views.{kind_slot};

use crate::names::{Group, grouped, joined};
use bumpalo::Bump;
use joined_data::{Figure, Row, Slot, most};
use joined_fixed::put_all;
use std::alloc::{AllocError, Global};

/// Which list a slot is of.
#[derive(Clone, Copy)]
pub(crate) enum SlotKind {
    /// The signatures.
    Sigs,
    /// The boxes.
    Boxes,
    /// The boxes of a fork that is opened.
    Opened,
    /// The words of a new cell.
    Words,
}

/// A slot of a list.
fn slot_of(kind: SlotKind, i: u32) -> Slot
    ensures { slot_view result ≡ kind_slot kind i }
{
    match kind {
        SlotKind::Sigs => Slot::Sig(i),
        SlotKind::Boxes => Slot::Boxed(i),
        SlotKind::Opened => Slot::Open(i),
        SlotKind::Words => Slot::Word(i),
    }
}

/// Appends a slot.
fn add_slot(slots: &mut Vec<Slot>, slot: Slot) -> Result<(), AllocError>
    ensures { OnOk result (map slot_view slots.new.items ≡ map slot_view slots.old.items ++ (slot_view slot ∷ [])) }
{
    slots.push(slot)?;
    Ok(())
}

/// Appends so many slots of a list, from one on.
fn add_slots(slots: &mut Vec<Slot>, kind: SlotKind, i: u32, n: u32) -> Result<(), AllocError>
    requires few { i + n < 2 ^ 32 }
    ensures { OnOk result (map slot_view slots.new.items ≡ map slot_view slots.old.items ++ slots_from (kind_slot kind) i n) }
{
    if n == 0 {
        Ok(())
    } else {
        add_slot(slots, slot_of(kind, i))?;
        add_slots(slots, kind, i + 1, n - 1)
    }
}

/// Appends as many as some row has.
fn add_list(
    slots: &mut Vec<Slot>,
    kind: SlotKind,
    figure: &Figure,
    rows: &[Row],
) -> Result<(), AllocError>
    requires few { most_by (figure_at figure.now) (map row_view rows.now) < 2 ^ 31 }
    ensures { OnOk result (map slot_view slots.new.items ≡ map slot_view slots.old.items
        ++ slots_from (kind_slot kind) 0 (most_by (figure_at figure.now) (map row_view rows.now))) }
{
    let n = most(figure, rows) as u32;
    add_slots(slots, kind, 0, n)
}

/// All slots.
///
/// # Errors
///
/// `AllocError` where there is no memory for it.
pub fn all_slots<'a>(alloc: Global, bump: &'a Bump, rows: &[Row]) -> Result<&'a [Slot], AllocError>
    requires sigs { sig_count (map row_view rows.now) < 2 ^ 31 }
    requires boxes { box_count (map row_view rows.now) < 2 ^ 31 }
    requires saved { fork_count (map row_view rows.now) < 2 ^ 31 }
    requires words { word_count (map row_view rows.now) < 2 ^ 31 }
    ensures { IfOk result (λ s. map slot_view s.now ≡ all_slots (map row_view rows.now)) }
{
    let mut slots = Vec::new(alloc);
    add_list(&mut slots, SlotKind::Sigs, &Figure::Sigs, rows)?;
    add_list(&mut slots, SlotKind::Boxes, &Figure::Boxes, rows)?;
    add_list(&mut slots, SlotKind::Opened, &Figure::Opened, rows)?;
    add_list(&mut slots, SlotKind::Words, &Figure::Words, rows)?;
    add_slot(&mut slots, Slot::Looked)?;
    let kept = put_all(bump, &slots)?;
    Ok(kept)
}

/// The most of all tags at these slots.
pub(crate) fn most_tag(slots: &[Slot], rows: &[Row]) -> u64
    ensures { result ≡ most_tag (map slot_view slots.now) (map row_view rows.now) }
{
    match slots {
        [] => 0,
        [first, rest @ ..] => most(&Figure::SlotTag(*first, 0), rows).max(most_tag(rest, rows)),
    }
}

/// The name of a slot's wire.
///
/// # Errors
///
/// `AllocError` where there is no memory for it.
pub fn slot_title<'a>(alloc: Global, bump: &'a Bump, slot: Slot) -> Result<&'a [u8], AllocError>
    ensures { IfOk result (λ r. text_of r.now ≡ (slot_view slot).title) }
{
    match slot {
        Slot::Sig(i) => grouped(alloc, bump, Group::NextSig, u64::from(i)),
        Slot::Boxed(i) => grouped(alloc, bump, Group::NextBox, u64::from(i)),
        Slot::Open(i) => grouped(alloc, bump, Group::OpenBox, u64::from(i)),
        Slot::Word(i) => grouped(alloc, bump, Group::NewWord, u64::from(i)),
        Slot::Looked => Ok(b"looked"),
    }
}

/// The name of the field that says where its pointer comes from.
pub(crate) fn slot_by<'a>(alloc: Global, bump: &'a Bump, slot: Slot) -> Result<&'a [u8], AllocError>
    ensures { IfOk result (λ r. text_of r.now ≡ by_name (slot_view slot).title) }
{
    let title = slot_title(alloc, bump, slot)?;
    joined(alloc, bump, b"by_", title)
}

/// The name of the field that says its tag.
///
/// # Errors
///
/// `AllocError` where there is no memory for it.
pub fn slot_tagged<'a>(alloc: Global, bump: &'a Bump, slot: Slot) -> Result<&'a [u8], AllocError>
    ensures { IfOk result (λ r. text_of r.now ≡ tag_name (slot_view slot).title) }
{
    let title = slot_title(alloc, bump, slot)?;
    joined(alloc, bump, b"tag_", title)
}
