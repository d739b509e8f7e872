//! What a module does: how it settles, and its edges.

ghost use Rattle.std.specs.Prelude.{◌≡◌, List, ◌∷◌, map, IfOk, OnOk};
ghost use Rattle.verilog_tree.specs.Tree as tree;
ghost use Rattle.verilog_tree.specs.Meaning.{Store, fire as fire_of, fire_arms as fire_arms_of, settled, clocked_in, scope};
ghost use Rattle.verilog_tree.specs.Meaning.{edge as edge_of, edge_in};
ghost use Rattle.verilog_tree.specs.Meaning.{chosen, holds as holds_in};
ghost use Rattle.verilog_tree.specs.Tree.{cases};
ghost use Rattle.verilog_tree.specs.Views.{arms_of, expr_of, item_of, stmt_of};
ghost use Rattle.verilog_run.specs.Held.{held};
ghost use Rattle.verilog_run.specs.Scopes.{scope_of};
ghost use Rattle.verilog_run.specs.Writes.{after_all};

use crate::assign::{assign, assign_next};
use crate::contents::Contents;
use crate::operate::is_true;
use crate::run::run;
use crate::scene::Scene;
use crate::value::{labelled, own, value};
use crate::widths::widest_case;
use crate::writes::{Write, write_all};
use std::alloc::AllocError;
use verilog_tree::{Cases, Expression, Item, Place, Statement};
use wide_numbers::Number;

/// The arms of a case in the clock's block, of which the first that has the number is taken.
#[cycle(fire)]
fn fire_arms(
    scene: &Scene,
    read: &Contents,
    writes: &mut Vec<Write>,
    w: &Number,
    n: &Number,
    arms: &Cases<'_>,
) -> Result<(), AllocError>
    ensures { OnOk result ((S : Store) → after_all writes.new.items S
        ≡ fire_arms_of (scope_of scene.now) (held read.now) w.now n.now (arms_of arms.now) (after_all writes.old.items S)) }
{
    match arms {
        Cases::Otherwise(s) => {
            fire(scene, read, writes, s)?;
            Ok(())
        }
        Cases::Arm(labels, s, _, rest) => {
            let taken = labelled(scene, read, w, n, labels)?;
            if taken {
                fire(scene, read, writes, s)?;
                return Ok(());
            }
            fire_arms(scene, read, writes, w, n, rest)?;
            Ok(())
        }
    }
}

/// One statement of the clock's block after the other.
#[cycle(fire)]
fn fire_both(
    scene: &Scene,
    read: &Contents,
    writes: &mut Vec<Write>,
    s: &Statement<'_>,
    t: &Statement<'_>,
) -> Result<(), AllocError>
    ensures { OnOk result ((S : Store) → after_all writes.new.items S ≡ fire_of (scope_of scene.now) (held read.now) (stmt_of t.now)
        (fire_of (scope_of scene.now) (held read.now) (stmt_of s.now) (after_all writes.old.items S))) }
{
    fire(scene, read, writes, s)?;
    fire(scene, read, writes, t)?;
    Ok(())
}

/// One statement of the clock's block or the other.
#[cycle(fire)]
fn fire_one(
    scene: &Scene,
    read: &Contents,
    writes: &mut Vec<Write>,
    e: &Expression<'_>,
    s: &Statement<'_>,
    t: &Statement<'_>,
) -> Result<(), AllocError>
    ensures { OnOk result ((S : Store) → after_all writes.new.items S
        ≡ chosen (holds_in (scope_of scene.now) (held read.now) (expr_of e.now))
        (fire_of (scope_of scene.now) (held read.now) (stmt_of s.now) (after_all writes.old.items S))
        (fire_of (scope_of scene.now) (held read.now) (stmt_of t.now) (after_all writes.old.items S))) }
{
    let n = own(scene, read, e)?;
    if is_true(&n) {
        fire(scene, read, writes, s)?;
        return Ok(());
    }
    fire(scene, read, writes, t)?;
    Ok(())
}

/// The arm of a case in the clock's block that an expression takes.
#[cycle(fire)]
fn fire_case(
    scene: &Scene,
    read: &Contents,
    writes: &mut Vec<Write>,
    e: &Expression<'_>,
    arms: &Cases<'_>,
) -> Result<(), AllocError>
    ensures { OnOk result ((S : Store) → after_all writes.new.items S
        ≡ fire_of (scope_of scene.now) (held read.now) (cases (expr_of e.now) (arms_of arms.now)) (after_all writes.old.items S)) }
{
    let w = widest_case(scene, e, arms)?;
    let n = value(scene, read, &w, e)?;
    fire_arms(scene, read, writes, &w, &n, arms)?;
    Ok(())
}

/// A statement of the clock's block, which reads all as it was before.
#[cycle(fire)]
fn fire(
    scene: &Scene,
    read: &Contents,
    writes: &mut Vec<Write>,
    s: &Statement<'_>,
) -> Result<(), AllocError>
    ensures { OnOk result ((S : Store) → after_all writes.new.items S
        ≡ fire_of (scope_of scene.now) (held read.now) (stmt_of s.now) (after_all writes.old.items S)) }
{
    match s {
        Statement::Skip => Ok(()),
        Statement::Put(place, e) => assign_next(scene, read, writes, place, e),
        Statement::Seq(s, t) => fire_both(scene, read, writes, s, t),
        Statement::Branch(e, s, t) => fire_one(scene, read, writes, e, s, t),
        Statement::Case(e, arms) => fire_case(scene, read, writes, e, arms),
    }
}

/// An item settles.
fn settle_one(scene: &Scene, store: &mut Contents, item: &Item<'_>) -> Result<(), AllocError>
    ensures { OnOk result ((is : List tree.Item) → settled (scope_of scene.now) is (held store.new)
        ≡ settled (scope_of scene.now) (item_of item.now ∷ is) (held store.old)) }
{
    match item {
        Item::Wire(_, x, e) => {
            let place = Place::Whole(x);
            assign(scene, store, &place, e)?;
            Ok(())
        }
        Item::Settles(s) => {
            run(scene, store, s)?;
            Ok(())
        }
        _ => Ok(()),
    }
}

/// Wires and blocks settle, from the first to the last.
fn settle_items(scene: &Scene, store: &mut Contents, rest: &[Item<'_>]) -> Result<(), AllocError>
    ensures { OnOk result (held store.new ≡ settled (scope_of scene.now) (map item_of rest.now) (held store.old)) }
{
    match rest {
        [] => Ok(()),
        [first, others @ ..] => {
            settle_one(scene, store, first)?;
            settle_items(scene, store, others)?;
            Ok(())
        }
    }
}

/// What a block of the clock is to write.
fn clock_one(
    scene: &Scene,
    read: &Contents,
    writes: &mut Vec<Write>,
    item: &Item<'_>,
) -> Result<(), AllocError>
    ensures { OnOk result ((is : List tree.Item) (S : Store) →
        clocked_in (scope_of scene.now) is (held read.now) (after_all writes.new.items S)
        ≡ clocked_in (scope_of scene.now) (item_of item.now ∷ is) (held read.now) (after_all writes.old.items S)) }
{
    match item {
        Item::Clocked(s) => {
            fire(scene, read, writes, s)?;
            Ok(())
        }
        _ => Ok(()),
    }
}

/// What the blocks of the clock are to write.
fn clock_items(
    scene: &Scene,
    read: &Contents,
    writes: &mut Vec<Write>,
    rest: &[Item<'_>],
) -> Result<(), AllocError>
    ensures { OnOk result ((S : Store) → after_all writes.new.items S
        ≡ clocked_in (scope_of scene.now) (map item_of rest.now) (held read.now) (after_all writes.old.items S)) }
{
    match rest {
        [] => Ok(()),
        [first, others @ ..] => {
            clock_one(scene, read, writes, first)?;
            clock_items(scene, read, writes, others)?;
            Ok(())
        }
    }
}

/// What an edge is to write.
fn edge_writes(scene: &Scene, read: &Contents, items: &[Item<'_>]) -> Result<Vec<Write>, AllocError>
    ensures { IfOk result (λ ws. after_all ws.items (held read.now)
        ≡ clocked_in (scope_of scene.now) (map item_of items.now) (held read.now) (held read.now)) }
{
    let mut writes = Vec::new(scene.alloc);
    clock_items(scene, read, &mut writes, items)?;
    Ok(writes)
}

/// All wires and blocks of a module settle. Where memory runs out, what is held says nothing any more.
///
/// # Errors
///
/// Only where memory runs out, as it does for a number of 2^62 bits.
pub fn settle(scene: &Scene, items: &[Item<'_>], store: &mut Contents) -> Result<(), AllocError>
    requires { scope_of scene.now ≡ scope (map item_of items.now) }
    ensures { OnOk result (held store.new ≡ settled (scope (map item_of items.now)) (map item_of items.now) (held store.old)) }
{
    settle_items(scene, store, items)
}

/// An edge of a module that finds it so, where all has settled; before it settles again.
///
/// # Errors
///
/// As `settle`.
pub fn settled_edge(
    scene: &Scene,
    items: &[Item<'_>],
    store: &mut Contents,
) -> Result<(), AllocError>
    requires { scope_of scene.now ≡ scope (map item_of items.now) }
    ensures { OnOk result (held store.new ≡ edge_in (scope (map item_of items.now)) (map item_of items.now) (held store.old)) }
{
    let writes = edge_writes(scene, store, items)?;
    write_all(scene.alloc, store, &writes)?;
    Ok(())
}

/// The next edge of a module, before it settles again.
///
/// # Errors
///
/// As `settle`.
pub fn next_edge(scene: &Scene, items: &[Item<'_>], store: &mut Contents) -> Result<(), AllocError>
    requires { scope_of scene.now ≡ scope (map item_of items.now) }
    ensures { OnOk result (held store.new ≡ edge_of (map item_of items.now) (held store.old)) }
{
    settle(scene, items, store)?;
    settled_edge(scene, items, store)
}
