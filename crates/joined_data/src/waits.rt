//! Rows that wait.

ghost use Rattle.std.specs.Prelude.{◌≡◌, ◌++◌, [], ◌∷◌, OnOk, IfOk, length, map};
ghost use Rattle.joined_module.specs.Module.{is_waited, waiting_row, site_at, waiting_at, waiting_rows, found_rows};
ghost use Rattle.joined_data.specs.Views.{site_view, row_view};

use crate::flags::sees_later;
use crate::rows::{Deed, Row, Sees, Site, Worth};
use bumpalo::Bump;
use std::alloc::{AllocError, Global};

/// Some row goes there and sees later what is there.
fn is_waited(rows: &[Row], key: u64) -> bool
    ensures { result ≡ is_waited (map row_view rows.now) key }
{
    match rows {
        [] => false,
        [first, rest @ ..] => (sees_later(first) && first.to == key) || is_waited(rest, key),
    }
}

/// The row that waits at a key.
fn waiting_row<'a>(key: u64, site: Site) -> Row<'a>
    ensures { row_view result ≡ waiting_row key (site_view site) }
{
    Row {
        key,
        waits: true,
        sees: Sees::Nothing,
        to: key,
        site,
        moves: 0,
        ends: false,
        makes: false,
        words: &[],
        sigs: &[],
        boxes: &[],
        fork: Deed::Leaves,
        worth: Worth::Stays,
    }
}

/// What is looked at at a key.
fn site_at(rows: &[Row], key: u64) -> Site
    ensures { site_view result ≡ site_at (map row_view rows.now) key }
{
    match rows {
        [] => Site::Nowhere,
        [first, rest @ ..] => {
            if !first.ends && first.to == key {
                first.site
            } else {
                site_at(rest, key)
            }
        }
    }
}

/// Appends a row.
fn add_row<'a>(found: &mut Vec<Row<'a>>, row: &Row<'a>) -> Result<(), AllocError>
    ensures { OnOk result (map row_view found.new.items ≡ map row_view found.old.items ++ (row_view row.now ∷ [])) }
{
    found.push(*row)?;
    Ok(())
}

/// Appends the row that waits at a key, if there is one.
fn add_waiting<'a>(found: &mut Vec<Row<'a>>, rows: &[Row<'a>], key: u64) -> Result<(), AllocError>
    ensures { OnOk result (map row_view found.new.items ≡ map row_view found.old.items ++ waiting_at (map row_view rows.now) key) }
{
    if is_waited(rows, key) {
        add_row(found, &waiting_row(key, site_at(rows, key)))
    } else {
        Ok(())
    }
}

/// Appends the rows that wait.
fn add_all_waiting<'a>(found: &mut Vec<Row<'a>>, rows: &[Row<'a>]) -> Result<(), AllocError>
    ensures { OnOk result (map row_view found.new.items ≡ map row_view found.old.items
        ++ waiting_rows (map row_view rows.now) 0 (length rows.now)) }
{
    let mut key = 0;
    while key < rows.len() {
        add_waiting(found, rows, key as u64)?;
        key = key + 1;
    }
    Ok(())
}

/// All rows that a module finds.
///
/// # Errors
///
/// `AllocError` where there is no memory for it.
pub fn found_rows<'a>(
    alloc: Global,
    bump: &'a Bump,
    rows: &[Row<'a>],
) -> Result<&'a [Row<'a>], AllocError>
    ensures { IfOk result (λ r. map row_view r.now ≡ found_rows (map row_view rows.now)) }
{
    let mut found = Vec::new(alloc);
    add_all_waiting(&mut found, rows)?;
    found.extend_from_slice(rows)?;
    let kept = bump.try_alloc_slice_copy(found.as_slice())?;
    Ok(kept)
}
