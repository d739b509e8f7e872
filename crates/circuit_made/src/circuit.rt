//! The tree of a net's circuit.

ghost use Rattle.std.specs.Prelude.{◌≡◌, ◌≤◌, ◌<◌, ◌^◌, true, IfOk, length, map};
ghost use Rattle.verilog_tree.specs.Views.{item_of};
ghost use Rattle.joined_module.specs.Fits.{module_fits};
ghost use Rattle.joined_module.specs.Module.{joined_module};
ghost use Rattle.circuit_meaning.specs.Laws.{room, most_room};
ghost use Rattle.circuit_made.specs.Made.{CircuitOf};
ghost use Rattle.circuit_made.specs.Views.{made_view};

use crate::table::{Made, make_table};
use bumpalo::Bump;
use circuit_meaning::law_circuits;
use joined_tree::joined_items;
use net_build::Net;
use std::alloc::{AllocError, Global};
use verilog_tree::Item;

/// The items of a table's module.
fn table_items<'a>(
    alloc: Global,
    bump: &'a Bump,
    made: Made<'a>,
    ports: &[u32],
    cells: u32,
    forks: u32,
) -> Result<&'a [Item<'a>], AllocError>
    requires cells { cells < 2 ^ 31 }
    requires forks { forks < 2 ^ 31 }
    requires fits { module_fits (made_view made) most_room (length ports.now) ≡ true }
    ensures { IfOk result (λ r. map item_of r.now ≡ joined_module (made_view made.entry) (room cells forks) (length ports.now)) }
{
    joined_items(
        alloc,
        bump,
        made.rows,
        made.start,
        cells as u64,
        forks as u64,
        ports.len() as u64,
    )
}

/// The items of a net's circuit, with a port for each of these places in its list of nodes and so many cells and forks. They are in `bump`.
///
/// # Errors
///
/// `AllocError` where there is no memory for them.
pub fn circuit_items<'a>(
    alloc: Global,
    bump: &'a Bump,
    net: &Net,
    ports: &[u32],
    cells: u32,
    forks: u32,
) -> Result<&'a [Item<'a>], AllocError>
    requires cells { 1 ≤ cells }
    requires few_cells { cells < 2 ^ 31 }
    requires forks { 1 ≤ forks }
    requires few_forks { forks < 2 ^ 31 }
    requires ports { length ports.now < 2 ^ 31 }
    ensures { IfOk result (λ r. CircuitOf net.now ports.now cells forks (map item_of r.now)) }
{
    law_circuits();
    let made = make_table(alloc, bump, net, ports)?;
    let items = table_items(alloc, bump, made, ports, cells, forks)?;
    Ok(items)
}
