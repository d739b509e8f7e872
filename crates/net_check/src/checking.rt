//! The check, in the order of the faults.

ghost use Rattle.std.specs.Prelude.{◌≡◌, ◌≢◌, ◌<◌, ◌≤◌, ◌^◌, ◌∷◌, [], length, IfOk, IfErr};
ghost use Rattle.net_build.specs.Sound.{Sound, roots};
ghost use Rattle.net_check.specs.Faults.{FirstFault, MeetBelow};
ghost use Rattle.net_check.specs.Laws.{NoFault, OneFault};
ghost use Rattle.net_check.specs.Steps.{IsFirstLoose, IsNodeFault, RowFault};

use crate::NetFault;
use crate::loose::{first_odd, least_past};
use crate::rows::{depths_meet, types_meet};
use crate::tally::count_all;
use net_build::{Net, Node};
use std::alloc::{AllocError, Global};

/// Ok exactly when the net is sound, and otherwise its first fault.
///
/// # Errors
///
/// The first fault: a number of roots that isn't 1, then the least loose wire, then the least node that misses its row.
/// `NetFault::NoMemory` where there is no memory for the counts.
pub fn check(alloc: Global, net: &Net) -> Result<(), NetFault>
    ensures sound { IfOk result (λ _. Sound net.now) }
    ensures fault { IfErr result (λ e. e ≢ NetFault.NoMemory → FirstFault net.now e) }
    // A net with a fault is not sound: so a sound net gets Ok, or too little memory.
    ensures unsound { IfErr result (λ e. e ≢ NetFault.NoMemory → ¬ Sound net.now) }
{
    let roots = count_roots(net);
    if roots != 1 {
        return Err(NetFault::RootCount(roots));
    }
    match first_loose(alloc, net) {
        Ok(None) => check_rows(net),
        Ok(Some(n)) => Err(NetFault::LooseWire(n)),
        Err(_) => Err(NetFault::NoMemory),
    }
}

/// How many roots there are.
fn count_roots(net: &Net) -> u32
    ensures { result ≡ roots net.now.nodes }
{
    let mut count = 0;
    for node in net.nodes() {
        count += is_root(*node);
    }
    count
}

/// 1 for a root, and 0 for any other node.
fn is_root(node: Node) -> u32
    ensures count { result ≡ roots (node ∷ []) }
    ensures few { result ≤ 1 }
{
    match node {
        Node::Root { .. } => 1,
        _ => 0,
    }
}

/// The least number that isn't held.
fn first_loose(alloc: Global, net: &Net) -> Result<Option<u32>, AllocError>
    ensures { IfOk result (λ o. IsFirstLoose net.now o) }
{
    let tally = count_all(alloc, net)?;
    match first_odd(net.wire_count(), &tally.below_nodes, &tally.above_nodes) {
        Some(n) => Ok(Some(n)),
        None => Ok(least_past(net)),
    }
}

/// Ok where each node meets its row, and otherwise the first that misses it.
fn check_rows(net: &Net) -> Result<(), NetFault>
    ensures meet { IfOk result (λ _. MeetBelow net.now (length net.now.nodes)) }
    ensures fault { IfErr result (λ e. RowFault net.now e) }
{
    for (n, node) in net.nodes().iter().enumerate() {
        if let Some(fault) = row_fault(net, n as u32, *node) {
            return Err(fault);
        }
    }
    Ok(())
}

/// What node `n` misses of its row.
fn row_fault(net: &Net, n: u32, node: Node) -> Option<NetFault>
    ensures { IsNodeFault net.now n node result }
{
    if !types_meet(net, node) {
        return Some(NetFault::TypeClash(n));
    }
    if !depths_meet(net, node) {
        return Some(NetFault::DepthClash(n));
    }
    None
}

/// A net has one first fault at most, and a sound net has none.
pub fn law_net_one_fault()
    ensures one { OneFault }
    ensures none { NoFault }
{}
