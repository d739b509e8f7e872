//! The table of open forks.

ghost use Rattle.std.specs.Prelude.{◌≡◌, ◌↔◌, ℕ, None, IsSome, IsTrue, OnOk, OnErr, IfOk, map};
ghost use Rattle.std.specs.Option.{option_or};
ghost use Rattle.std.specs.FinMap.{empty, entries, get, insert, remove};
ghost use Rattle.token_stacks.specs.Signatures.{Boxes};
ghost use Rattle.fork_join.specs.Entries.{pending};
ghost use Rattle.fork_join.specs.Arrivals.{IsOpenFor, arrival, after_arrival};
ghost use Rattle.fork_join.specs.Listed.{open_of};
ghost use Rattle.fork_join.specs.Nested.{entry_of};

use crate::adding::put_all;
use crate::forks::{Kept, Nodes, arrive_in, has_in, put_in, remove_in};
use crate::listing::list_nodes;
use crate::{Arrived, Open};
use pcf_values::{Side, Val};
use std::alloc::{AllocError, Global};
use std::collections::BTreeMap;
use std::marker::Model;
use token_stacks::BoxStack;

/// The forks that wait for answers: a finite map from node and box stack to nothing kept, or to the answer of one side.
///
/// A look-up costs a logarithm of the number of entries. A node whose entries are all closed keeps an empty map until the table is
/// dropped, so that besides its entries the table takes memory for each node that ever forked.
#[derive(Drop)]
pub struct JoinTable {
    alloc: Global,
    nodes: Nodes,
}

impl Model for JoinTable {
    ghost use Rattle.std.specs.Ordering.{nat_cmp};
    ghost use Rattle.std.specs.BTreeMap.{IsOrdered};
    ghost use Rattle.std.specs.FinMap.{FinMap, code};
    ghost use Rattle.fork_join.specs.Entries.{Entry, key_cmp};
    ghost use Rattle.fork_join.specs.Codes.{key_code, entry_code};
    ghost use Rattle.fork_join.specs.Nested.{table_of};

    ghost Value = { FinMap key_cmp Entry };

    ghost coded = { code key_code entry_code };

    ghost view = { λ a. table_of a.nodes };

    ghost invariant = { λ a. IsOrdered nat_cmp a.nodes };
}

impl JoinTable {
    /// A table without entries, which takes its memory from `alloc` later on. Takes none itself.
    pub fn new(alloc: Global) -> JoinTable
        ensures { result ≡ empty }
    {
        JoinTable {
            alloc,
            nodes: BTreeMap::new(alloc),
        }
    }

    /// The open entries, in the order of their keys: by node, and then by box stack. It takes steps and memory that grow with the number
    /// of entries, and of nodes that ever forked.
    ///
    /// # Errors
    ///
    /// The list runs out of memory.
    pub fn entries(&self) -> Result<Vec<Open<'_>>, AllocError>
        ensures { IfOk result (λ list. map open_of list.items ≡ entries self.now) }
    {
        list_nodes(self.alloc, &self.nodes)
    }

    /// Opens the entry of a node and a box stack, which isn't there yet, with nothing kept. All other entries stay.
    ///
    /// # Errors
    ///
    /// It runs out of memory; the table is as it was, and the box stack is dropped.
    pub fn begin(&mut self, node: u32, boxes: BoxStack) -> Result<(), AllocError>
        requires { get self.old (node, boxes) ≡ None }
        ensures ok { OnOk result (self.new ≡ insert self.old (node, boxes) pending) }
        ensures err { OnErr result (self.new ≡ self.old) }
    {
        self.put(node, boxes, Kept::Nothing)
    }

    /// Puts an entry under a node and a box stack, in the place of what is there. All other entries stay. Where memory runs out the table
    /// is as it was, and the box stack is dropped.
    pub(crate) fn put(&mut self, node: u32, boxes: BoxStack, kept: Kept) -> Result<(), AllocError>
        ensures ok { OnOk result (self.new ≡ insert self.old (node, boxes) (entry_of kept)) }
        ensures err { OnErr result (self.new ≡ self.old) }
    {
        put_in(&mut self.nodes, self.alloc, node, boxes, kept)
    }

    /// Takes the entry of a node and a box stack out, if it is there. All other entries stay. Takes no memory.
    pub(crate) fn remove(&mut self, node: u32, boxes: &BoxStack)
        ensures { self.new ≡ remove self.old (node, boxes.now) }
    {
        remove_in(&mut self.nodes, node, boxes);
    }

    /// Whether there is an entry for a node and a box stack. Takes no memory.
    pub fn has(&self, node: u32, boxes: &BoxStack) -> bool
        ensures { IsTrue result ↔ IsSome (get self.now (node, boxes.now)) }
    {
        has_in(&self.nodes, node, boxes)
    }

    /// Takes a copy of each entry of another table, which has none that is here too. All own entries stay. It takes steps and memory that
    /// grow with the number of the other's entries, and of nodes that ever forked there; a look-up costs a logarithm of the number here.
    ///
    /// # Errors
    ///
    /// It runs out of memory; the table is as it was.
    pub fn add_all(&mut self, other: &JoinTable) -> Result<(), AllocError>
        requires { (n : ℕ) (t : Boxes) → IsSome (get other.now (n, t)) → get self.old (n, t) ≡ None }
        ensures ok { OnOk result ((n : ℕ) (t : Boxes) → get self.new (n, t) ≡ option_or (get other.now (n, t)) (get self.old (n, t))) }
        ensures err { OnErr result (self.new ≡ self.old) }
    {
        put_all(self, other)
    }

    /// Brings the answer of a side to the entry of a node and a box stack, where that side isn't kept.
    ///
    /// `First` comes exactly where nothing was kept, and the value is kept for the side. `Both` gives the other side's kept value, and
    /// the entry is gone. All other entries stay. Takes no memory.
    pub fn arrive(&mut self, node: u32, boxes: &BoxStack, side: Side, v: Val) -> Arrived
        requires { IsOpenFor (get self.old (node, boxes.now)) side }
        ensures arrived { result ≡ arrival (get self.old (node, boxes.now)) }
        ensures rest { self.new ≡ after_arrival self.old (node, boxes.now) side v }
    {
        arrive_in(&mut self.nodes, node, boxes, side, v)
    }
}
