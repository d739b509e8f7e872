//! All that is asked of a row, and the rows of which it is true.

ghost use Rattle.std.specs.Prelude.{◌≡◌, ◌<◌, ◌^◌, true, length, IfOk};
ghost use Rattle.joined_core.specs.Listed.{right_table};
ghost use Rattle.joined_module.specs.Rows.{rows_fit};
ghost use Rattle.joined_numbers.specs.Within.{rows_within};
ghost use Rattle.joined_numbers.specs.Ports.{with_ports};
ghost use Rattle.joined_table.specs.Views.{sites_view, entry_view, entries_view};
ghost use Rattle.joined_asked.specs.Parts.{asked, all_asked};

use crate::fits::entry_fits;
use crate::within::entry_within;
use joined_check::{row_right, site};
use joined_table::{Entry, SiteAt};
use net_build::Net;
use std::alloc::{AllocError, Global};

/// Whether a row of a table is right of the net, is one that a module can have, and takes its pointers and numbers from within.
///
/// # Errors
///
/// `AllocError` where there is no memory for the names on the way.
pub fn entry_asked(
    alloc: Global,
    net: &Net,
    ports: &[u32],
    sites: &[SiteAt],
    entry: &Entry,
) -> Result<bool, AllocError>
    requires { length ports.now < 2 ^ 32 }
    ensures { IfOk result (λ b. b ≡ asked (with_ports net.now ports.now) (length ports.now) (sites_view sites.now) (entry_view entry.now)) }
{
    if !entry_fits(entry) || !entry_within(alloc, sites, ports.len(), entry) {
        return Ok(false);
    }
    row_right(
        alloc,
        net,
        ports,
        site(sites, &entry.key),
        &entry.key,
        &entry.seen,
        &entry.row,
    )
}

/// The rows of which all of that is true, in their order.
///
/// # Errors
///
/// `AllocError` where there is no memory for them.
pub fn keep_asked(
    alloc: Global,
    net: &Net,
    ports: &[u32],
    sites: &[SiteAt],
    entries: Vec<Entry>,
) -> Result<Vec<Entry>, AllocError>
    requires { length ports.now < 2 ^ 32 }
    ensures right { IfOk result (λ v. right_table (with_ports net.now ports.now) (sites_view sites.now) (entries_view v.items) ≡ true) }
    ensures fit { IfOk result (λ v. rows_fit (entries_view v.items) ≡ true) }
    ensures within { IfOk result (λ v. rows_within (length ports.now) (sites_view sites.now) (entries_view v.items) ≡ true) }
{
    let mut kept = Vec::new(alloc);
    for entry in entries {
        if entry_asked(alloc, net, ports, sites, &entry)? {
            kept.push(entry)?;
        }
    }
    Ok(kept)
}
