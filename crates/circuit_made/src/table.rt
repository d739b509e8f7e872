//! The table of a net.

ghost use Rattle.std.specs.Prelude.{◌≡◌, ◌<◌, ◌^◌, [], true, IfOk, IfSome, length};
ghost use Rattle.joined_core.specs.Listed.{right_table};
ghost use Rattle.joined_module.specs.Rows.{rows_fit};
ghost use Rattle.joined_module.specs.Fits.{module_fits};
ghost use Rattle.joined_numbers.specs.Ports.{with_ports};
ghost use Rattle.joined_numbers.specs.Within.{rows_within, starts_within};
ghost use Rattle.joined_numbers.specs.Runs.{table_of};
ghost use Rattle.joined_table.specs.Views.{sites_view, entries_view};
ghost use Rattle.circuit_meaning.specs.Laws.{most_room};
ghost use Rattle.circuit_made.specs.Made.{TableOf};
ghost use Rattle.circuit_made.specs.Views.{made_view};

use bumpalo::Bump;
use joined_asked::{keep_asked, starts_within};
use joined_data::Row;
use joined_entries::{module_rows, start_number};
use joined_fits::table_fits;
use joined_search::{Table, find};
use joined_table::{Entry, SiteAt};
use net_build::Net;
use std::alloc::{AllocError, Global};

/// The table of a net, as its module takes it.
#[derive(Clone, Copy)]
pub struct Made<'a> {
    /// Its rows.
    pub rows: &'a [Row<'a>],
    /// The number of the key at which a run begins.
    pub start: u64,
}

/// The rows that are found and not refused, with what is looked at.
fn kept_rows(alloc: Global, net: &Net, ports: &[u32]) -> Result<Table, AllocError>
    requires ports { length ports.now < 2 ^ 31 }
    ensures right { IfOk result (λ t.
        right_table (with_ports net.now ports.now) (sites_view t.sites.items) (entries_view t.entries.items) ≡ true) }
    ensures fit { IfOk result (λ t. rows_fit (entries_view t.entries.items) ≡ true) }
    ensures within { IfOk result (λ t. rows_within (length ports.now) (sites_view t.sites.items) (entries_view t.entries.items) ≡ true) }
{
    let Table { sites, entries } = find(alloc, net, ports)?;
    let entries = keep_asked(alloc, net, ports, &sites, entries)?;
    Ok(Table { sites, entries })
}

/// The table of these rows.
fn table_of<'a>(
    alloc: Global,
    bump: &'a Bump,
    net: &Net,
    sites: &[SiteAt],
    entries: &[Entry],
) -> Result<Made<'a>, AllocError>
    ensures { IfOk result (λ m. made_view m ≡ table_of net.now (sites_view sites.now) (entries_view entries.now)) }
{
    let rows = module_rows(alloc, bump, sites, entries)?;
    Ok(Made {
        rows,
        start: start_number(alloc, net, entries),
    })
}

/// Whether a table fits its module, with however many cells and forks.
fn fits<'a>(
    alloc: Global,
    bump: &'a Bump,
    made: Made<'a>,
    ports: &[u32],
) -> Result<bool, AllocError>
    ensures { IfOk result (λ b. b ≡ module_fits (made_view made.entry) most_room (length ports.now)) }
{
    table_fits(
        alloc,
        bump,
        made.rows,
        made.start,
        2147483647,
        2147483647,
        ports.len() as u64,
    )
}

/// The table of these rows, if it fits its module.
#[tactic(auto, using(crate::proofs::Parts::table_is))]
fn fitting_table<'a>(
    alloc: Global,
    bump: &'a Bump,
    net: &Net,
    ports: &[u32],
    sites: &[SiteAt],
    entries: &[Entry],
) -> Result<Option<Made<'a>>, AllocError>
    requires right { right_table (with_ports net.now ports.now) (sites_view sites.now) (entries_view entries.now) ≡ true }
    requires fit { rows_fit (entries_view entries.now) ≡ true }
    requires within { rows_within (length ports.now) (sites_view sites.now) (entries_view entries.now) ≡ true }
    requires starts { starts_within net.now (sites_view sites.now) ≡ true }
    ensures table { IfOk result (λ o. IfSome o (λ m. TableOf net.now ports.now (made_view m))) }
    ensures fits { IfOk result (λ o. IfSome o (λ m. module_fits (made_view m) most_room (length ports.now) ≡ true)) }
{
    let made = table_of(alloc, bump, net, sites, entries)?;
    if fits(alloc, bump, made, ports)? {
        Ok(Some(made))
    } else {
        Ok(None)
    }
}

/// The table of these rows, if it is one that a module can have.
fn asked_table<'a>(
    alloc: Global,
    bump: &'a Bump,
    net: &Net,
    ports: &[u32],
    sites: &[SiteAt],
    entries: &[Entry],
) -> Result<Option<Made<'a>>, AllocError>
    requires right { right_table (with_ports net.now ports.now) (sites_view sites.now) (entries_view entries.now) ≡ true }
    requires fit { rows_fit (entries_view entries.now) ≡ true }
    requires within { rows_within (length ports.now) (sites_view sites.now) (entries_view entries.now) ≡ true }
    ensures table { IfOk result (λ o. IfSome o (λ m. TableOf net.now ports.now (made_view m))) }
    ensures fits { IfOk result (λ o. IfSome o (λ m. module_fits (made_view m) most_room (length ports.now) ≡ true)) }
{
    if starts_within(alloc, net, sites) {
        fitting_table(alloc, bump, net, ports, sites, entries)
    } else {
        Ok(None)
    }
}

/// The table without a row.
fn empty<'a>() -> Made<'a>
    ensures { made_view result ≡ record { rows = []; start = 0 } }
{
    Made {
        rows: &[],
        start: 0,
    }
}

/// The table of a net, with a port for each of these places in its list of nodes. Its rows are in `bump`.
///
/// # Errors
///
/// `AllocError` where there is no memory for it.
pub fn make_table<'a>(
    alloc: Global,
    bump: &'a Bump,
    net: &Net,
    ports: &[u32],
) -> Result<Made<'a>, AllocError>
    requires ports { length ports.now < 2 ^ 31 }
    ensures table { IfOk result (λ m. TableOf net.now ports.now (made_view m)) }
    ensures fits { IfOk result (λ m. module_fits (made_view m) most_room (length ports.now) ≡ true) }
{
    let kept = kept_rows(alloc, net, ports)?;
    let made = asked_table(alloc, bump, net, ports, &kept.sites, &kept.entries);
    drop(kept);
    match made? {
        Some(made) => Ok(made),
        None => Ok(empty()),
    }
}
