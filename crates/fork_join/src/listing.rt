//! The open entries, one after the other.

ghost use Rattle.std.specs.Prelude.{◌≡◌, ◌++◌, OnOk, IfOk, map};
ghost use Rattle.std.specs.BTreeMap.{IsOrdered};
ghost use Rattle.token_stacks.specs.Order.{box_cmp};
ghost use Rattle.fork_join.specs.Nested.{tagged, table_of};
ghost use Rattle.fork_join.specs.Listed.{open_of};
ghost use Rattle.std.specs.FinMap.{entries};

use crate::forks::{Forks, Kept, Nodes};
use std::alloc::{AllocError, Global};
use token_stacks::BoxStack;

/// An open entry, as it stands in its table.
#[derive(Clone, Copy)]
pub struct Open<'a> {
    /// The node that forked.
    pub node: u32,
    /// The box stack at which the question came.
    pub boxes: &'a BoxStack,
    /// What is kept of the fork.
    pub kept: Kept,
}

/// Lists the entries of one node behind those of the nodes before it.
fn list_forks<'a>(list: &mut Vec<Open<'a>>, node: u32, forks: &'a Forks) -> Result<(), AllocError>
    ensures listed { OnOk result (map open_of list.new.items ≡ map open_of list.old.items ++ tagged node forks.now.entries) }
    ensures ordered { IsOrdered box_cmp forks.now }
{
    for (boxes, kept) in forks.iter() {
        list.push(Open {
            node,
            boxes,
            kept: *kept,
        })?;
    }
    Ok(())
}

/// Lists the entries of all nodes, by node and then by box stack.
pub(crate) fn list_nodes<'a>(alloc: Global, nodes: &'a Nodes) -> Result<Vec<Open<'a>>, AllocError>
    ensures { IfOk result (λ list. map open_of list.items ≡ entries (table_of nodes.now)) }
{
    let mut list = Vec::new(alloc);
    for (node, forks) in nodes.iter() {
        list_forks(&mut list, *node, forks)?;
    }
    Ok(list)
}
