//! What a net's circuit needs.

ghost use Rattle.std.specs.Prelude.{◌<◌, ◌^◌, IfOk, length};
ghost use Rattle.circuit_made.specs.Made.{CountsOf};

use crate::table::make_table;
use bumpalo::Bump;
use circuit_meaning::law_circuits;
use joined_needs::{Needs, joined_needs};
use net_build::Net;
use std::alloc::{AllocError, Global};

/// What a net's circuit, with a port for each of these places in its list of nodes, needs with these numbers at them: its run within a
/// budget of moves, by the rows of its table.
///
/// # Errors
///
/// `AllocError` where there is no memory for it.
pub fn circuit_needs(
    alloc: Global,
    net: &Net,
    ports: &[u32],
    numbers: &[u64],
    budget: u32,
) -> Result<Needs, AllocError>
    requires { length ports.now < 2 ^ 31 }
    ensures { IfOk result (λ k. CountsOf net.now ports.now numbers.now budget k) }
{
    law_circuits();
    let bump = Bump::new(alloc);
    let made = make_table(alloc, &bump, net, ports)?;
    let needs = joined_needs(alloc, made.rows, made.start, numbers, budget)?;
    Ok(needs)
}
