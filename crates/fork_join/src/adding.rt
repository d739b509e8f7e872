//! The entries of one table, put into another.

ghost use Rattle.std.specs.Prelude.{◌≡◌, ℕ, None, IsSome, OnOk, OnErr, map};
ghost use Rattle.std.specs.Option.{option_or};
ghost use Rattle.std.specs.FinMap.{get, insert};
ghost use Rattle.token_stacks.specs.Signatures.{Boxes};
ghost use Rattle.fork_join.specs.Listed.{open_of};
ghost use Rattle.fork_join.specs.Nested.{entry_of};
ghost use Rattle.fork_join.specs.Filling.{filled, emptied, AllNew};

use crate::{JoinTable, Open};
use std::alloc::AllocError;

/// Puts a copy of a listed entry into a table. Where memory runs out the table is as it was.
fn put_one(table: &mut JoinTable, one: &Open<'_>) -> Result<(), AllocError>
    ensures ok { OnOk result (table.new ≡ insert table.old (one.now.node, one.now.boxes.now) (entry_of one.now.kept)) }
    ensures err { OnErr result (table.new ≡ table.old) }
{
    let boxes = one.boxes.copy()?;
    table.put(one.node, boxes, one.kept)
}

/// Takes the entries of listed keys out. Takes no memory.
fn take_list(table: &mut JoinTable, list: &[Open<'_>])
    ensures { table.new ≡ emptied (map open_of list.now) table.old }
{
    for one in list {
        table.remove(one.node, one.boxes);
    }
}

/// Puts listed entries into a table, one after the other. Where memory runs out they are taken out again.
fn put_list(table: &mut JoinTable, list: &[Open<'_>]) -> Result<(), AllocError>
    requires { AllNew (map open_of list.now) table.old }
    ensures ok { OnOk result (table.new ≡ filled (map open_of list.now) table.old) }
    ensures err { OnErr result (table.new ≡ table.old) }
{
    for one in list {
        match put_one(table, one) {
            Ok(()) => {}
            Err(e) => {
                take_list(table, list);
                return Err(e);
            }
        }
    }
    Ok(())
}

/// Puts a copy of each entry of another table into a table, which has none of them.
pub(crate) fn put_all(table: &mut JoinTable, other: &JoinTable) -> Result<(), AllocError>
    requires { (n : ℕ) (t : Boxes) → IsSome (get other.now (n, t)) → get table.old (n, t) ≡ None }
    ensures ok { OnOk result ((n : ℕ) (t : Boxes) → get table.new (n, t) ≡ option_or (get other.now (n, t)) (get table.old (n, t))) }
    ensures err { OnErr result (table.new ≡ table.old) }
{
    let list = other.entries()?;
    put_list(table, &list)?;
    Ok(())
}
