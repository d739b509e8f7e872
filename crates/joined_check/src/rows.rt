//! Whether a row is right.

ghost use Rattle.std.specs.Prelude.{◌≡◌, ◌<◌, ◌^◌, length, nat_lt, IfOk};
ghost use Rattle.std.specs.Option.{option_map};
ghost use Rattle.joined_core.specs.Rows.{row_moves};
ghost use Rattle.joined_core.specs.Right.{alone, first_right, row_right};
ghost use Rattle.joined_numbers.specs.Ports.{with_ports};
ghost use Rattle.joined_table.specs.Views.{walker_view, named_view, key_view, site_view, seen_view, joined_row_view};

use crate::begins::{begins_right, behind_test};
use crate::ends::way_right;
use crate::ticks::leads;
use joined_table::{JoinedRow, Key, Named, Seen, Site, Walker, Way};
use net_build::Net;
use std::alloc::{AllocError, Global};

/// The token alone.
fn alone(alloc: Global, live: Option<Walker>) -> Option<Named>
    ensures { option_map named_view result ≡ option_map alone (option_map walker_view live) }
{
    match live {
        Some(live) => Some(Named {
            live,
            forks: Vec::new(alloc),
        }),
        None => None,
    }
}

/// Whether a row's first part goes where it says.
fn first_right(
    alloc: Global,
    net: &Net,
    ports: &[u32],
    row: &JoinedRow,
    from: Option<Walker>,
    seen: &Seen,
) -> Result<bool, AllocError>
    requires { length ports.now < 2 ^ 32 }
    ensures { IfOk result (λ b. b ≡
        first_right (with_ports net.now ports.now) (seen_view seen.now) (joined_row_view row.now) (option_map walker_view from)) }
{
    leads(alloc, net, ports, row.moves, alone(alloc, from), &row.to)
}

/// Whether a row makes a move.
fn moves(seen: &Seen, row: &JoinedRow) -> bool
    ensures { result ≡ nat_lt 0 (row_moves (seen_view seen.now) (joined_row_view row.now)) }
{
    match (seen, &row.way) {
        (Seen::Nothing | Seen::Shaped(_), Way::Onwards) => 0 < row.moves,
        _ => true,
    }
}

/// Whether a row is right at a key, where that is looked at and this is seen. It takes as many steps as the row has moves.
///
/// # Errors
///
/// `AllocError` where there is no memory for the names on the way.
pub fn row_right(
    alloc: Global,
    net: &Net,
    ports: &[u32],
    site: Site,
    key: &Key,
    seen: &Seen,
    row: &JoinedRow,
) -> Result<bool, AllocError>
    requires { length ports.now < 2 ^ 32 }
    ensures { IfOk result (λ b. b ≡
        row_right (with_ports net.now ports.now) (site_view site) (key_view key.now) (seen_view seen.now) (joined_row_view row.now)) }
{
    if !begins_right(net, ports, site, key, seen, &row.from, &row.given) {
        return Ok(false);
    }
    let from = behind_test(alloc, net, ports, seen, &row.from)?;
    if !first_right(alloc, net, ports, row, from, seen)? {
        return Ok(false);
    }
    if !way_right(alloc, net, ports, &row.to, &row.way)? {
        return Ok(false);
    }
    Ok(moves(seen, row))
}
