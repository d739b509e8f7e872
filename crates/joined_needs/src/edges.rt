//! One edge.

ghost use Rattle.std.specs.Prelude.{◌≡◌, ◌<◌, ◌^◌, false, OnOk, map};
ghost use Rattle.std.specs.Option.{option_map};
ghost use Rattle.joined_module.specs.Rows.{is_new_cell, row_looks};
ghost use Rattle.joined_edges.specs.Timed.{rests, timed_rest, timed_wait, timed_none};
ghost use Rattle.joined_numbers.specs.At.{number_at};
ghost use Rattle.joined_data.specs.Views.{row_view};
ghost use Rattle.joined_needs.specs.Views.{held_of, timed_of};
ghost use Rattle.joined_needs.specs.Making.{seen_after};
ghost use Rattle.joined_needs.specs.Edges.{act_edge, row_edge, found_edge, an_edge};

use crate::find::{find_row, next_row, seen_by};
use crate::makes::{Made, late_after, make, put_made};
use crate::pointers::looked_place;
use crate::walk::Walk;
use joined_data::{Flag, Origin, Row, flagged, row_looks};
use std::alloc::{AllocError, Global};

/// Whether a row rests.
fn rests(row: &Row, walk: &Walk) -> bool
    ensures { result ≡ rests (row_view row.now) (timed_of walk.now) }
{
    (0 < walk.late && flagged(Flag::Needs, row))
        || (((0 < walk.late || walk.changed) && flagged(Flag::Tests, row))
            || (walk.fresh && flagged(Flag::Touches, row)))
}

/// An edge at which it does.
fn rest(walk: &mut Walk)
    ensures { timed_of walk.new ≡ timed_rest (timed_of walk.old) }
{
    walk.done = walk.done || (walk.held.ended && walk.late == 0);
    walk.changed = walk.late == 1;
    walk.fresh = false;
    walk.late = walk.late.saturating_sub(1);
}

/// An edge of a row that waits.
fn wait<'a>(rows: &[Row<'a>], walk: &mut Walk<'a>)
    ensures { timed_of walk.new ≡ timed_wait (map row_view rows.now) (timed_of walk.old) }
{
    walk.row = find_row(rows, walk.held.key, seen_by(&walk.held));
    walk.changed = walk.late == 1;
    walk.seen = true;
    walk.fresh = false;
    walk.late = walk.late.saturating_sub(1);
}

/// An edge without a row.
fn none(walk: &mut Walk)
    ensures { timed_of walk.new ≡ timed_none (timed_of walk.old) }
{
    walk.held.full = true;
}

/// Whether what is looked at next is in the new cell.
fn is_new(row: &Row) -> bool
    ensures { result ≡ is_new_cell (row_looks (row_view row.now)) }
{
    match row_looks(row) {
        Some(Origin::New(_)) => true,
        _ => false,
    }
}

/// Whether the cell that is looked at next was read.
fn seen_after(row: &Row, made: &Made) -> bool
    ensures { result ≡ seen_after (row_view row.now) made.now }
{
    !is_new(row) && looked_place(row.site, &made.sigs, &made.boxes) < made.base
}

/// An edge at which a row is made.
fn act<'a>(
    alloc: Global,
    rows: &[Row<'a>],
    ports: &[u64],
    row: &Row<'a>,
    walk: &mut Walk<'a>,
) -> Result<(), AllocError>
    requires few { walk.old.held.moves < 2 ^ 64 }
    ensures { OnOk result (timed_of walk.new
        ≡ act_edge (number_at ports.now) (map row_view rows.now) (row_view row.now) (timed_of walk.old)) }
{
    let made = make(alloc, ports, row, &walk.held)?;
    let seen = seen_after(row, &made);
    let late = late_after(ports, &walk.held, row.worth, walk.late);
    put_made(alloc, row, &mut walk.held, made)?;
    walk.row = next_row(
        rows,
        flagged(Flag::Later, row),
        walk.held.key,
        seen_by(&walk.held),
    );
    walk.changed = walk.late == 1 || flagged(Flag::Takes, row);
    walk.seen = seen;
    walk.fresh = flagged(Flag::Opens, row) || flagged(Flag::Keeps, row);
    walk.late = late;
    Ok(())
}

/// An edge with a row.
fn row_edge<'a>(
    alloc: Global,
    rows: &[Row<'a>],
    ports: &[u64],
    row: &Row<'a>,
    walk: &mut Walk<'a>,
) -> Result<(), AllocError>
    requires few { walk.old.held.moves < 2 ^ 64 }
    ensures { OnOk result (timed_of walk.new
        ≡ row_edge (number_at ports.now) (map row_view rows.now) (row_view row.now) (timed_of walk.old)) }
{
    if rests(row, walk) {
        rest(walk);
        return Ok(());
    }
    if row.waits {
        wait(rows, walk);
        return Ok(());
    }
    act(alloc, rows, ports, row, walk)
}

/// An edge of a run that goes on.
fn found_edge<'a>(
    alloc: Global,
    rows: &[Row<'a>],
    ports: &[u64],
    walk: &mut Walk<'a>,
) -> Result<(), AllocError>
    requires few { walk.old.held.moves < 2 ^ 64 }
    ensures { OnOk result (timed_of walk.new ≡ found_edge (number_at ports.now) (map row_view rows.now)
        (option_map row_view walk.old.row) (timed_of walk.old)) }
{
    match walk.row {
        Some(row) => row_edge(alloc, rows, ports, &row, walk),
        None => {
            none(walk);
            Ok(())
        }
    }
}

/// An edge.
pub(crate) fn an_edge<'a>(
    alloc: Global,
    rows: &[Row<'a>],
    ports: &[u64],
    walk: &mut Walk<'a>,
) -> Result<(), AllocError>
    requires few { walk.old.held.ended ≡ false → walk.old.held.moves < 2 ^ 64 }
    ensures { OnOk result (timed_of walk.new ≡ an_edge (number_at ports.now) (map row_view rows.now) (timed_of walk.old)) }
{
    if walk.held.ended || walk.held.full {
        rest(walk);
        Ok(())
    } else {
        found_edge(alloc, rows, ports, walk)
    }
}
