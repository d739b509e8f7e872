//! A whole table.

ghost use Rattle.std.specs.Prelude.{◌≡◌, ◌^◌, true, IfOk, map, nat_lt};
ghost use Rattle.verilog_tree.specs.WellFormed.{small};
ghost use Rattle.joined_module.specs.Fields.{row_fields};
ghost use Rattle.joined_module.specs.Module.{found_rows, widths, cell_width, fork_width};
ghost use Rattle.joined_module.specs.Fits.{fields_small, counts_fit, widths_fit, rows_fit_module, module_fits};
ghost use Rattle.joined_data.specs.Views.{row_view};
ghost use Rattle.joined_fields.specs.Views.{field_view, widths_view, room_of, table_of, Narrow};
ghost use Rattle.joined_fits.specs.Parts.{lists_small, rows_fit};

use crate::within::each_within;
use bumpalo::Bump;
use joined_data::{Figure, Row, found_rows, most};
use joined_fields::{Field, Widths, all_slots, cell_width, fork_width, row_fields, table_widths};
use std::alloc::{AllocError, Global};

/// A number that tools take.
fn small(n: u64) -> bool
    ensures { result ≡ small n }
{
    n < 2_147_483_648
}

/// The lists of all rows are short.
fn lists_small(rows: &[Row]) -> bool
    ensures { result ≡ lists_small (map row_view rows.now) }
{
    (small(most(&Figure::Sigs, rows)) && small(most(&Figure::Boxes, rows)))
        && (small(most(&Figure::Opened, rows)) && small(most(&Figure::Words, rows)))
}

/// Fields of 64 bits at most.
fn fields_small(fields: &[Field]) -> bool
    ensures { result ≡ fields_small (map field_view fields.now) }
{
    match fields {
        [] => true,
        [first, rest @ ..] => first.bits <= 64 && fields_small(rest),
    }
}

/// All counts fit.
fn counts_fit(w: &Widths, ports: u64, rows: u64) -> bool
    ensures { result ≡ counts_fit (widths_view w.now) ports rows }
{
    ((small(ports) && small(rows)) && (small(w.cells) && small(w.forks)))
        && ((small(w.sigs) && small(w.boxes)) && (small(w.saved) && small(w.words)))
}

/// All widths do.
fn widths_fit(w: &Widths) -> bool
    requires narrow { Narrow (widths_view w.now) }
    ensures { result ≡ widths_fit (widths_view w.now) }
{
    (small(w.place + w.tag) && small(w.depth)) && (small(cell_width(w)) && small(fork_width(w)))
}

/// A number has so many bits at most.
#[tactic(auto, using(crate::proofs::Literals::any_within, std::proofs::lemmas::Nat::one_shl))]
fn within_bits(n: u64, bits: u64) -> bool
    ensures { result ≡ nat_lt n (2 ^ bits) }
{
    64 <= bits || n < 1 << bits
}

/// What is asked of the start, of the fields and of each row.
fn rows_fit<'a>(w: &Widths, start: u64, ports: u64, fields: &[Field<'a>], rows: &[Row<'a>]) -> bool
    ensures { result ≡ rows_fit (widths_view w.now) start ports (map field_view fields.now) (map row_view rows.now) }
{
    (within_bits(start, w.key) && fields_small(fields)) && each_within(w, ports, rows)
}

/// The rows that are found fit.
#[tactic(auto, using(crate::proofs::Lists::short_lists, joined_fields::proofs::Narrow::narrow, joined_fields::proofs::Narrow::tag_is))]
fn found_fit<'a>(
    alloc: Global,
    bump: &'a Bump,
    rows: &[Row<'a>],
    start: u64,
    cells: u64,
    forks: u64,
    ports: u64,
) -> Result<bool, AllocError>
    requires few { lists_small (map row_view rows.now) ≡ true }
    ensures { IfOk result (λ b. b
        ≡ rows_fit_module (widths (map row_view rows.now) (room_of cells forks)) start ports (map row_view rows.now)) }
{
    let slots = all_slots(alloc, bump, rows)?;
    let w = table_widths(slots, rows, cells, forks);
    let fields = row_fields(alloc, bump, w.tag, slots, rows)?;
    let counted = counts_fit(&w, ports, rows.len() as u64) && widths_fit(&w);
    Ok(counted && rows_fit(&w, start, ports, fields, rows))
}

/// Whether a table, whose run begins at a key, fits its module, with so many cells and forks and so many ports.
///
/// # Errors
///
/// `AllocError` where there is no memory to tell.
#[tactic(auto, using(crate::proofs::Lists::long_lists))]
pub fn table_fits<'a>(
    alloc: Global,
    bump: &'a Bump,
    rows: &[Row<'a>],
    start: u64,
    cells: u64,
    forks: u64,
    ports: u64,
) -> Result<bool, AllocError>
    ensures { IfOk result (λ b. b ≡ module_fits (table_of (map row_view rows.now) start) (room_of cells forks) ports) }
{
    let found = found_rows(alloc, bump, rows)?;
    if lists_small(found) {
        found_fit(alloc, bump, found, start, cells, forks, ports)
    } else {
        Ok(false)
    }
}
