//! Where pointers come from.

ghost use Rattle.std.specs.Prelude.{◌≡◌, ◌≤◌, ◌<◌, length, map};
ghost use Rattle.joined_module.specs.Rows.{from_at, is_new_cell, row_looks, opened_boxes};
ghost use Rattle.joined_module.specs.Fields.{kind_of_from, tag_of_from, same_from, from_place, first_tag, looked_from, tag_or};
ghost use Rattle.joined_data.specs.Views.{origin_view, origin_if, deed_view, row_view};
ghost use Rattle.joined_data.specs.Figures.{slot_view};

use crate::rows::{Deed, Origin, Row, Site};

/// A place in what a row makes, where a pointer is put.
#[derive(Clone, Copy)]
pub enum Slot {
    /// Of the signatures.
    Sig(u32),
    /// Of the boxes.
    Boxed(u32),
    /// Of the boxes of a fork that is opened.
    Open(u32),
    /// Of the words of a new cell.
    Word(u32),
    /// The pointer that is looked at next.
    Looked,
}

/// An origin without its tag.
pub fn kind_of_origin(o: Origin) -> Origin
    ensures { origin_view result ≡ kind_of_from (origin_view o) }
{
    match o {
        Origin::SigPart(_) => Origin::SigPart(0),
        Origin::BoxPart(_) => Origin::BoxPart(0),
        Origin::New(_) | Origin::Bare(_) => Origin::New(0),
        other => other,
    }
}

/// Its tag, where it has one.
pub(crate) fn tag_of_origin(o: Origin) -> Option<u64>
    ensures { result ≡ tag_of_from (origin_view o) }
{
    match o {
        Origin::SigPart(t) | Origin::BoxPart(t) | Origin::New(t) | Origin::Bare(t) => Some(t),
        _ => None,
    }
}

/// Whether two are the same.
fn same_origin(a: Origin, b: Origin) -> bool
    ensures { result ≡ same_from (origin_view a) (origin_view b) }
{
    match (a, b) {
        (Origin::Sig(i), Origin::Sig(j)) => i == j,
        (Origin::Boxed(i), Origin::Boxed(j)) => i == j,
        (Origin::Fork(i), Origin::Fork(j)) => i == j,
        (Origin::Word(i), Origin::Word(j)) => i == j,
        (Origin::SigPart(i), Origin::SigPart(j)) => i == j,
        (Origin::BoxPart(i), Origin::BoxPart(j)) => i == j,
        (Origin::New(i), Origin::New(j)) => i == j,
        (Origin::Bare(i), Origin::Bare(j)) => i == j,
        _ => false,
    }
}

/// The place of an origin among these, or their count.
pub fn origin_place(list: &[Origin], o: Origin) -> u64
    ensures place { result ≡ from_place (map origin_view list.now) (origin_view o) }
    ensures few { result ≤ length list.now }
{
    match list {
        [] => 0,
        [first, rest @ ..] => {
            if same_origin(*first, o) {
                0
            } else {
                origin_place(rest, o) + 1
            }
        }
    }
}

/// What a list has at a place.
fn origin_at(list: &[Origin], i: u32) -> Option<Origin>
    ensures { origin_if result ≡ from_at (map origin_view list.now) i }
{
    match list.get(i as usize) {
        Some(o) => Some(*o),
        None => None,
    }
}

/// The boxes of a fork that is opened.
pub fn opened_boxes<'a>(deed: Deed<'a>) -> &'a [Origin]
    ensures { map origin_view result.now ≡ opened_boxes (deed_view deed.entry) }
{
    match deed {
        Deed::Opens(list, _, _) => list,
        _ => &[],
    }
}

/// The pointer that is looked at when the row has been made.
pub fn row_looks(row: &Row) -> Option<Origin>
    ensures { origin_if result ≡ row_looks (row_view row.now) }
{
    match row.site {
        Site::OnSigs => {
            if row.waits {
                Some(Origin::Sig(0))
            } else {
                origin_at(row.sigs, 0)
            }
        }
        Site::OnBoxes => {
            if row.waits {
                Some(Origin::Boxed(0))
            } else {
                origin_at(row.boxes, 0)
            }
        }
        _ => None,
    }
}

/// It is in the new cell.
pub(crate) fn is_new_cell(o: Option<Origin>) -> bool
    ensures { result ≡ is_new_cell (origin_if o) }
{
    match o {
        Some(Origin::New(_)) => true,
        _ => false,
    }
}

/// The pointer that is looked at, where it is seen at once.
fn looked_origin(row: &Row) -> Option<Origin>
    ensures { origin_if result ≡ looked_from (row_view row.now) }
{
    let looks = row_looks(row);
    if is_new_cell(looks) { None } else { looks }
}

/// What a row has at a slot.
pub fn slot_origin(slot: Slot, row: &Row) -> Option<Origin>
    ensures { origin_if result ≡ (slot_view slot).source (row_view row.now) }
{
    match slot {
        Slot::Sig(i) => origin_at(row.sigs, i),
        Slot::Boxed(i) => origin_at(row.boxes, i),
        Slot::Open(i) => origin_at(opened_boxes(row.fork), i),
        Slot::Word(i) => {
            if row.makes {
                origin_at(row.words, i)
            } else {
                None
            }
        }
        Slot::Looked => looked_origin(row),
    }
}

/// The tag that a row has at a slot, or another.
pub(crate) fn slot_tag(slot: Slot, row: &Row, other: u64) -> u64
    ensures { result ≡ tag_or other ((slot_view slot).source (row_view row.now)) }
{
    match slot_origin(slot, row) {
        Some(o) => match tag_of_origin(o) {
            Some(t) => t,
            None => other,
        },
        None => other,
    }
}

/// The first tag that a row has at a slot.
pub fn first_tag(slot: Slot, rows: &[Row]) -> u64
    ensures { result ≡ first_tag (slot_view slot) (map row_view rows.now) }
{
    match rows {
        [] => 0,
        [first, rest @ ..] => slot_tag(slot, first, first_tag(slot, rest)),
    }
}
