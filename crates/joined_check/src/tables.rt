//! Whether a table is right.

ghost use Rattle.std.specs.Prelude.{◌≡◌, ◌<◌, ◌^◌, length, IfOk};
ghost use Rattle.joined_core.specs.Listed.{site_of, right_table};
ghost use Rattle.joined_numbers.specs.Ports.{with_ports};
ghost use Rattle.joined_table.specs.Views.{key_view, site_view, sites_view, entries_view};

use crate::rows::row_right;
use joined_table::{Entry, Key, Site, SiteAt, same_channel};
use net_build::Net;
use std::alloc::{AllocError, Global};

/// What is looked at at a key.
pub fn site(sites: &[SiteAt], key: &Key) -> Site
    ensures { site_view result ≡ site_of (sites_view sites.now) (key_view key.now) }
{
    let mut rest = sites;
    while let [at, others @ ..] = rest {
        if same_channel(at.channel, key.channel) {
            return at.site;
        }
        rest = others;
    }
    Site::Nowhere
}

/// Whether each row of a table is right of the net at its own key.
///
/// # Errors
///
/// `AllocError` where there is no memory for the names on the way.
pub fn right_table(
    alloc: Global,
    net: &Net,
    ports: &[u32],
    sites: &[SiteAt],
    entries: &[Entry],
) -> Result<bool, AllocError>
    requires { length ports.now < 2 ^ 32 }
    ensures { IfOk result (λ b. b ≡ right_table (with_ports net.now ports.now) (sites_view sites.now) (entries_view entries.now)) }
{
    let mut rest = entries;
    while let [entry, others @ ..] = rest {
        let looked = site(sites, &entry.key);
        if !row_right(
            alloc,
            net,
            ports,
            looked,
            &entry.key,
            &entry.seen,
            &entry.row,
        )? {
            return Ok(false);
        }
        rest = others;
    }
    Ok(true)
}
