//! A module's widths and counts.

ghost use Rattle.std.specs.Prelude.{◌≡◌, ◌≤◌, ◌<◌, ◌*◌, ◌^◌, map};
ghost use Rattle.joined_module.specs.Fields.{all_slots, tag_bits, vector_wide};
ghost use Rattle.joined_module.specs.Module.{widths, cell_width, fork_width};
ghost use Rattle.joined_data.specs.Views.{row_view};
ghost use Rattle.joined_data.specs.Figures.{slot_view};
ghost use Rattle.verilog_tree.specs.Views.{width_of};
ghost use Rattle.joined_fields.specs.Views.{widths_view, room_of, Narrow};

use crate::slots::most_tag;
use joined_data::{Figure, Row, Slot, bits_upto, most};
use verilog_tree::{Extent, Range};

/// A module's widths and counts.
#[derive(Clone, Copy)]
pub struct Widths {
    /// The bits of a cell's place.
    pub place: u64,
    /// Those of a tag.
    pub tag: u64,
    /// Those of a key.
    pub key: u64,
    /// Those of a count of forks.
    pub depth: u64,
    /// The cells.
    pub cells: u64,
    /// The forks that can be open at once.
    pub forks: u64,
    /// The signatures.
    pub sigs: u64,
    /// The boxes.
    pub boxes: u64,
    /// The boxes of a fork.
    pub saved: u64,
    /// The words of a cell.
    pub words: u64,
}

/// The bits of a tag.
pub fn tag_bits(slots: &[Slot], rows: &[Row]) -> u64
    requires all { map slot_view slots.now ≡ all_slots (map row_view rows.now) }
    ensures bits { result ≡ tag_bits (map row_view rows.now) }
    ensures few { result ≤ 64 }
{
    let seen = most(&Figure::Seen, rows);
    bits_upto(seen.max(most_tag(slots, rows)))
}

/// The widths and counts of a table, with so many cells and forks.
pub fn table_widths(slots: &[Slot], rows: &[Row], cells: u64, forks: u64) -> Widths
    requires all { map slot_view slots.now ≡ all_slots (map row_view rows.now) }
    ensures all { widths_view result ≡ widths (map row_view rows.now) (room_of cells forks) }
    ensures place { result.place ≤ 64 }
    ensures tag { result.tag ≤ 64 }
{
    Widths {
        place: bits_upto(cells),
        tag: tag_bits(slots, rows),
        key: bits_upto(most(&Figure::Reach, rows)),
        depth: bits_upto(forks),
        cells,
        forks,
        sigs: most(&Figure::Sigs, rows),
        boxes: most(&Figure::Boxes, rows),
        saved: most(&Figure::Opened, rows),
        words: most(&Figure::Words, rows),
    }
}

/// A vector of so many bits.
pub fn vector_wide<'a>(bits: u64) -> Range<'a>
    ensures { width_of result ≡ vector_wide bits }
{
    Range::UpTo(Extent::Count(bits.saturating_sub(1)))
}

/// The bits of so many pointers.
fn all_bits(bits: u64, n: u64) -> u64
    requires bits { bits ≤ 128 }
    requires few { n < 2 ^ 31 }
    ensures all { result ≡ bits * n }
    ensures few { result < 2 ^ 40 }
{
    bits * n
}

/// The bits of a cell.
pub fn cell_width(w: &Widths) -> u64
    requires narrow { Narrow (widths_view w.now) }
    ensures { result ≡ cell_width (widths_view w.now) }
{
    let bits = all_bits(w.place + w.tag, w.words);
    if bits == 0 { 1 } else { bits }
}

/// The bits of a fork.
pub fn fork_width(w: &Widths) -> u64
    requires narrow { Narrow (widths_view w.now) }
    ensures { result ≡ fork_width (widths_view w.now) }
{
    w.place + all_bits(w.place + w.tag, w.saved)
}
