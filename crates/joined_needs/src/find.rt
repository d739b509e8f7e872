//! The row that is made next.

ghost use Rattle.std.specs.Prelude.{◌≡◌, map};
ghost use Rattle.std.specs.Option.{option_map};
ghost use Rattle.joined_core.specs.Rows.{is_zero};
ghost use Rattle.joined_module.specs.Machine.{seen_by, same_sees, find_row};
ghost use Rattle.joined_module.specs.Module.{is_waited, site_at, waiting_row};
ghost use Rattle.joined_found.specs.Found.{has_key, waiting_found, next_row};
ghost use Rattle.joined_data.specs.Views.{sees_view, site_view, row_view};
ghost use Rattle.joined_needs.specs.Views.{held_of};

use crate::pointers::pointer_at;
use crate::walk::Held;
use joined_data::{Deed, Flag, Row, Sees, Site, Worth, flagged};
use pcf_values::Val;

/// Whether a value is 0.
fn is_zero(value: Val) -> bool
    ensures { result ≡ is_zero value }
{
    match value {
        Val::Number(n) => n == 0,
        Val::Overflow => false,
    }
}

/// What is seen.
pub(crate) fn seen_by(held: &Held) -> Sees
    ensures { sees_view result ≡ seen_by (site_view held.now.site) (held_of held.now) }
{
    match held.site {
        Site::Nowhere => Sees::Nothing,
        Site::OnSigs => Sees::Tag(pointer_at(&held.sigs, 0).tag),
        Site::OnBoxes => Sees::Tag(pointer_at(&held.boxes, 0).tag),
        Site::OnValue => Sees::Zero(is_zero(held.value)),
    }
}

/// Whether two are the same.
fn same_sees(a: Sees, b: Sees) -> bool
    ensures { result ≡ same_sees (sees_view a) (sees_view b) }
{
    match (a, b) {
        (Sees::Nothing, Sees::Nothing) => true,
        (Sees::Tag(m), Sees::Tag(n)) => m == n,
        (Sees::Zero(m), Sees::Zero(n)) => m == n,
        _ => false,
    }
}

/// The first row of a key and of what is seen.
pub(crate) fn find_row<'a>(rows: &[Row<'a>], key: u64, seen: Sees) -> Option<Row<'a>>
    ensures { option_map row_view result ≡ find_row (map row_view rows.now) key (sees_view seen) }
{
    match rows {
        [] => None,
        [first, rest @ ..] => {
            if first.key == key && same_sees(first.sees, seen) {
                Some(*first)
            } else {
                find_row(rest, key, seen)
            }
        }
    }
}

/// Whether some row has this key.
fn has_key(rows: &[Row], key: u64) -> bool
    ensures { result ≡ has_key (map row_view rows.now) key }
{
    match rows {
        [] => false,
        [first, rest @ ..] => first.key == key || has_key(rest, key),
    }
}

/// Some row goes there and sees later what is there.
fn is_waited(rows: &[Row], key: u64) -> bool
    ensures { result ≡ is_waited (map row_view rows.now) key }
{
    match rows {
        [] => false,
        [first, rest @ ..] => {
            (flagged(Flag::Later, first) && first.to == key) || is_waited(rest, key)
        }
    }
}

/// What is looked at at a key.
fn site_at(rows: &[Row], key: u64) -> Site
    ensures { site_view result ≡ site_at (map row_view rows.now) key }
{
    match rows {
        [] => Site::Nowhere,
        [first, rest @ ..] => {
            if !first.ends && first.to == key {
                first.site
            } else {
                site_at(rest, key)
            }
        }
    }
}

/// The row that waits at a key.
fn waiting_row<'a>(key: u64, site: Site) -> Row<'a>
    ensures { row_view result ≡ waiting_row key (site_view site) }
{
    Row {
        key,
        waits: true,
        sees: Sees::Nothing,
        to: key,
        site,
        moves: 0,
        ends: false,
        makes: false,
        words: &[],
        sigs: &[],
        boxes: &[],
        fork: Deed::Leaves,
        worth: Worth::Stays,
    }
}

/// The row that waits at a key that has rows.
fn waiting_found<'a>(rows: &[Row<'a>], key: u64) -> Option<Row<'a>>
    ensures { option_map row_view result ≡ waiting_found (map row_view rows.now) key }
{
    if has_key(rows, key) {
        Some(waiting_row(key, site_at(rows, key)))
    } else {
        None
    }
}

/// The row that is found: where what is seen comes later, the one that waits.
pub(crate) fn next_row<'a>(rows: &[Row<'a>], later: bool, key: u64, seen: Sees) -> Option<Row<'a>>
    ensures { option_map row_view result ≡ next_row (map row_view rows.now) later key (sees_view seen) }
{
    if later && is_waited(rows, key) {
        waiting_found(rows, key)
    } else {
        find_row(rows, key, seen)
    }
}
