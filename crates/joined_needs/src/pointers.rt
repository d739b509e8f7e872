//! Pointers of a row.

ghost use Rattle.std.specs.Prelude.{◌≡◌, ◌++◌, IfOk, OnOk, map};
ghost use Rattle.joined_module.specs.Machine.{tagged_at, looked_place, base_of, pointer_from, pointers_from};
ghost use Rattle.joined_data.specs.Views.{origin_view, site_view, row_view};
ghost use Rattle.joined_needs.specs.Views.{pointer_of, cell_at, cells_of, held_of};

use crate::forks::{innermost_boxes, innermost_top};
use crate::walk::{Held, Pointer};
use joined_data::{Deed, Origin, Row, Site};
use std::alloc::{AllocError, Global};

/// What a list has at a place.
pub(crate) fn pointer_at(list: &[Pointer], i: u64) -> Pointer
    ensures { pointer_of result ≡ tagged_at (map pointer_of list.now) i }
{
    match list {
        [] => Pointer { tag: 0, place: 0 },
        [first, rest @ ..] => {
            if i == 0 {
                *first
            } else {
                pointer_at(rest, i - 1)
            }
        }
    }
}

/// The words of a cell.
pub(crate) fn words_at<'c>(cells: &'c [Vec<Pointer>], place: u64) -> &'c [Pointer]
    ensures { map pointer_of result.now ≡ cell_at (cells_of cells.now) place }
{
    if place < cells.len() as u64 {
        return &cells[place as usize];
    }
    &[]
}

/// The place that is looked at.
pub(crate) fn looked_place(site: Site, sigs: &[Pointer], boxes: &[Pointer]) -> u64
    ensures { result ≡ looked_place (site_view site) (map pointer_of sigs.now) (map pointer_of boxes.now) }
{
    match site {
        Site::OnSigs => pointer_at(sigs, 0).place,
        Site::OnBoxes => pointer_at(boxes, 0).place,
        _ => 0,
    }
}

/// A word of the cell that is looked at.
fn read_at(held: &Held, i: u64) -> Pointer
    ensures { pointer_of result ≡ (held_of held.now).read i }
{
    let place = looked_place(held.site, &held.sigs, &held.boxes);
    pointer_at(words_at(&held.cells, place), i)
}

/// The place of the cell that a row makes.
pub(crate) fn base_of(row: &Row, held: &Held) -> u64
    ensures { result ≡ base_of (row_view row.now) (held_of held.now) }
{
    match row.fork {
        Deed::Keeps(_) | Deed::Closes => innermost_top(&held.forks),
        _ => held.top,
    }
}

/// A pointer.
fn pointer_from(row: &Row, held: &Held, origin: Origin) -> Pointer
    ensures { pointer_of result ≡ pointer_from (row_view row.now) (held_of held.now) (origin_view origin) }
{
    match origin {
        Origin::Sig(i) => pointer_at(&held.sigs, u64::from(i)),
        Origin::Boxed(i) => pointer_at(&held.boxes, u64::from(i)),
        Origin::Fork(i) => pointer_at(innermost_boxes(&held.forks), u64::from(i)),
        Origin::Word(i) => read_at(held, u64::from(i)),
        Origin::SigPart(tag) => Pointer {
            tag,
            place: pointer_at(&held.sigs, 0).place,
        },
        Origin::BoxPart(tag) => Pointer {
            tag,
            place: pointer_at(&held.boxes, 0).place,
        },
        Origin::New(tag) | Origin::Bare(tag) => Pointer {
            tag,
            place: base_of(row, held),
        },
    }
}

/// Appends pointers.
fn add_pointers(
    out: &mut Vec<Pointer>,
    row: &Row,
    held: &Held,
    list: &[Origin],
) -> Result<(), AllocError>
    ensures { OnOk result (map pointer_of out.new.items
        ≡ map pointer_of out.old.items ++ pointers_from (row_view row.now) (held_of held.now) (map origin_view list.now)) }
{
    match list {
        [] => Ok(()),
        [first, rest @ ..] => {
            out.push(pointer_from(row, held, *first))?;
            add_pointers(out, row, held, rest)
        }
    }
}

/// Pointers.
pub(crate) fn pointers_from(
    alloc: Global,
    row: &Row,
    held: &Held,
    list: &[Origin],
) -> Result<Vec<Pointer>, AllocError>
    ensures { IfOk result (λ v. map pointer_of v.items ≡ pointers_from (row_view row.now) (held_of held.now) (map origin_view list.now)) }
{
    let mut out = Vec::new(alloc);
    add_pointers(&mut out, row, held, list)?;
    Ok(out)
}
