//! Where a row begins.

ghost use Rattle.std.specs.Prelude.{◌≡◌, ◌&&◌, ◌<◌, ◌^◌, map, length, IfOk};
ghost use Rattle.std.specs.Option.{option_map};
ghost use Rattle.circuit_rows.specs.Views.{row_view};
ghost use Rattle.joined_rows.specs.Open.{spot_of};
ghost use Rattle.joined_rows.specs.Compound.{terms_of};
ghost use Rattle.joined_core.specs.Rows.{sorts_of, key_of, zero_is};
ghost use Rattle.joined_core.specs.Same.{all_same, same_sort, same_key};
ghost use Rattle.joined_core.specs.Right.{test_by, begins, value_named, deep, on_sigs_seen, on_boxes_seen};
ghost use Rattle.joined_numbers.specs.Ports.{with_ports};
ghost use Rattle.joined_table.specs.Views.{term_view, mark_view, sort_view, spot_view, walker_view, key_view, site_view, seen_view};
ghost use Rattle.joined_table.specs.Views.{source_view};
ghost use Rattle.joined_check.specs.Parts.{begins_right, shape_there};

use crate::shapes::{all_fit, boxes_fit, sigs_fit};
use circuit_rows::{Row, row_of};
use joined_table::{Amount, Key, Mark, Seen, Site, Sort, Source, Spot, Term, Walker, same_channel};
use net_build::Net;
use std::alloc::{AllocError, Global};

/// Whether a work stack has these marks.
fn sorts_are(work: &[Mark], marks: &[Sort]) -> bool
    ensures { result ≡ all_same same_sort (sorts_of (map mark_view work.now)) (map sort_view marks.now) }
{
    match (work, marks) {
        ([], []) => true,
        ([Mark::R, xs @ ..], [Sort::R, ys @ ..])
        | ([Mark::L, xs @ ..], [Sort::L, ys @ ..])
        | ([Mark::Sign(_), xs @ ..], [Sort::Sig, ys @ ..]) => sorts_are(xs, ys),
        _ => false,
    }
}

/// Whether it is at this key.
fn is_at(x: &Walker, key: &Key) -> bool
    ensures { result ≡ same_key (key_of (walker_view x.now)) (key_view key.now) }
{
    match x {
        Walker::Asks(s) => !key.answers
            && same_channel(s.channel, key.channel)
            && sorts_are(&s.work, &key.marks),
        Walker::Says(_, s) => key.answers
            && same_channel(s.channel, key.channel)
            && sorts_are(&s.work, &key.marks),
    }
}

/// Whether an answer's value has a name.
fn value_named(x: &Walker) -> bool
    ensures { result ≡ value_named (walker_view x.now) }
{
    match x {
        Walker::Asks(_) | Walker::Says(Amount::Name(_), _) => true,
        Walker::Says(_, _) => false,
    }
}

/// Whether there are as many boxes as the wire is deep.
fn deep(net: &Net, ports: &[u32], spot: &Spot) -> bool
    ensures { result ≡ deep (with_ports net.now ports.now) (spot_view spot.now) }
{
    match net.wire(spot.channel.wire) {
        Some(wire) => spot.boxes.len() == wire.depth as usize,
        None => false,
    }
}

/// The shape that was seen on the signatures.
fn on_sigs(site: Site, seen: &Seen) -> Option<&Term>
    ensures { shape_there result ≡ on_sigs_seen (site_view site) (seen_view seen.now) }
{
    match (site, seen) {
        (Site::OnSigs, Seen::Shaped(x)) => Some(x),
        _ => None,
    }
}

/// The shape that was seen on the boxes.
fn on_boxes(site: Site, seen: &Seen) -> Option<&Term>
    ensures { shape_there result ≡ on_boxes_seen (site_view site) (seen_view seen.now) }
{
    match (site, seen) {
        (Site::OnBoxes, Seen::Shaped(x)) => Some(x),
        _ => None,
    }
}

/// Whether a row begins right at a key, by what is seen there.
pub(crate) fn begins_right(
    net: &Net,
    ports: &[u32],
    site: Site,
    key: &Key,
    seen: &Seen,
    from: &Walker,
    given: &[Source],
) -> bool
    ensures { result ≡ begins_right (with_ports net.now ports.now) (site_view site) (key_view key.now) (seen_view seen.now)
        (walker_view from.now) (map source_view given.now) }
{
    let spot = from.spot();
    is_at(from, key)
        && value_named(from)
        && deep(net, ports, spot)
        && sigs_fit(given, on_sigs(site, seen), 0, &spot.work)
        && boxes_fit(given, on_boxes(site, seen), 0, &spot.boxes)
        && all_fit(seen, given)
}

/// A test, by whether the value is 0.
fn test_by(alloc: Global, row: Row, is_zero: bool, x: &Walker) -> Result<Option<Walker>, AllocError>
    ensures { IfOk result (λ r. option_map walker_view r ≡ test_by (row_view row) is_zero (walker_view x.now)) }
{
    match (row, x) {
        (Row::Test { zero, other }, Walker::Says(_, s)) => {
            let at = s.copy(alloc)?;
            let channel = if is_zero { zero } else { other };
            Ok(Some(Walker::Asks(Spot {
                channel,
                work: at.work,
                boxes: at.boxes,
            })))
        }
        _ => Ok(None),
    }
}

/// A test by the row of the net.
fn test(
    alloc: Global,
    net: &Net,
    ports: &[u32],
    is_zero: bool,
    x: &Walker,
) -> Result<Option<Walker>, AllocError>
    ensures { IfOk result (λ r. option_map walker_view r ≡ begins (with_ports net.now ports.now) (zero_is is_zero) (walker_view x.now)) }
{
    match row_of(net, x.spot().channel) {
        Some(found) => test_by(alloc, found.row, is_zero, x),
        None => Ok(None),
    }
}

/// Where a row's first part begins, behind the test.
///
/// # Errors
///
/// `AllocError` where there is no memory for it.
pub fn behind_test(
    alloc: Global,
    net: &Net,
    ports: &[u32],
    seen: &Seen,
    x: &Walker,
) -> Result<Option<Walker>, AllocError>
    ensures { IfOk result (λ r. option_map walker_view r ≡ begins (with_ports net.now ports.now) (seen_view seen.now) (walker_view x.now)) }
{
    match seen {
        Seen::ZeroIs(b) => test(alloc, net, ports, *b, x),
        Seen::Nothing | Seen::Shaped(_) => Ok(Some(x.copy(alloc)?)),
    }
}
