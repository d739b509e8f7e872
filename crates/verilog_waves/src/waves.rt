//! A module at work, as a dump.

ghost use Rattle.std.specs.Prelude.{◌≡◌, ◌++◌, suc, nat_eq, map, IfOk, OnOk};
ghost use Rattle.verilog_tree.specs.Meaning.{scope};
ghost use Rattle.verilog_tree.specs.Names.{text_of};
ghost use Rattle.verilog_tree.specs.Views.{item_of};
ghost use Rattle.verilog_run.specs.Entries.{Name};
ghost use Rattle.verilog_run.specs.Held.{held, nothing};
ghost use Rattle.verilog_run.specs.Scopes.{scope_of};
ghost use Rattle.verilog_waves.specs.Course.{IsLast, after, before, behind};
ghost use Rattle.verilog_waves.specs.Dump.{dump, edges_text, shown_edge, start_text};
ghost use Rattle.verilog_waves.specs.Parts.{goes, next, written};
ghost use Rattle.verilog_waves.specs.Shown.{shown};
ghost use Rattle.verilog_waves.specs.Views.{shown_of};

use crate::changes::{push_edge, push_start};
use crate::shown::{Shown, push_head, shown_names};
use std::alloc::{AllocError, Global};
use verilog_run::{Contents, Scene, settle, settled_edge};
use verilog_tree::Item;
use wide_numbers::Number;

/// Whether a register is 0.
fn is_down(alloc: Global, store: &Contents, name: &[u8]) -> Result<bool, AllocError>
    ensures { IfOk result (λ b. b ≡ nat_eq ((held store.now).vec (text_of name.now)) 0) }
{
    let n = store.vector(alloc, name)?;
    Ok(n.is_zero())
}

/// Whether neither `done` nor `full` is up.
fn goes_on(alloc: Global, store: &Contents) -> Result<bool, AllocError>
    ensures { IfOk result (λ b. b ≡ goes (held store.now)) }
{
    let not_done = is_down(alloc, store, b"done")?;
    let not_full = is_down(alloc, store, b"full")?;
    Ok(not_done && not_full)
}

/// What the edge of the reset finds.
fn begin(
    alloc: Global,
    scene: &Scene,
    items: &[Item<'_>],
    store: &mut Contents,
) -> Result<(), AllocError>
    requires scope { scope_of scene.now ≡ scope (map item_of items.now) }
    requires empty { held store.old ≡ nothing }
    ensures { OnOk result (held store.new ≡ before (map item_of items.now) 0) }
{
    let one = Number::of(alloc, 1)?;
    store.set_vector(alloc, b"rst", one)?;
    settle(scene, items, store)
}

/// What an edge leads to: what the next one finds, and whether the run goes on behind it.
fn step(
    alloc: Global,
    scene: &Scene,
    items: &[Item<'_>],
    store: &mut Contents,
) -> Result<bool, AllocError>
    requires { scope_of scene.now ≡ scope (map item_of items.now) }
    ensures state { OnOk result (held store.new ≡ next (map item_of items.now) (held store.old)) }
    ensures goes { IfOk result (λ on. on ≡ goes (written (map item_of items.now) (held store.old))) }
{
    settled_edge(scene, items, store)?;
    let on = goes_on(alloc, store)?;
    store.set_vector(alloc, b"rst", Number::zero(alloc))?;
    settle(scene, items, store)?;
    Ok(on)
}

/// What the module holds behind the edge of the reset, with `rst` still up.
fn behind_reset(alloc: Global, scene: &Scene, items: &[Item<'_>]) -> Result<Contents, AllocError>
    requires { scope_of scene.now ≡ scope (map item_of items.now) }
    ensures { IfOk result (λ s. held s ≡ behind (map item_of items.now) 0) }
{
    let mut store = Contents::new(alloc);
    begin(alloc, scene, items, &mut store)?;
    settled_edge(scene, items, &mut store)?;
    settle(scene, items, &mut store)?;
    Ok(store)
}

/// Appends the k-th edge, where what it found was copied, and the store holds what the next one finds.
fn push_made(
    alloc: Global,
    text: &mut Vec<u8>,
    scene: &Scene,
    items: &[Item<'_>],
    names: &[Shown<'_>],
    k: u64,
    found: &Contents,
    store: &Contents,
) -> Result<(), AllocError>
    requires scope { scope_of scene.now ≡ scope (map item_of items.now) }
    requires found { (x : Name) → (held found.now).vec x ≡ (before (map item_of items.now) k).vec x }
    requires state { held store.now ≡ before (map item_of items.now) (suc k) }
    ensures { OnOk result (text.new.items ≡ text.old.items ++ shown_edge (map shown_of names.now) (map item_of items.now) k) }
{
    if k > 0 {
        return push_edge(alloc, text, names, k, found, store, store);
    }
    let up = behind_reset(alloc, scene, items)?;
    push_edge(alloc, text, names, k, found, &up, store)
}

/// Makes the k-th edge, and appends it.
fn push_step(
    alloc: Global,
    text: &mut Vec<u8>,
    scene: &Scene,
    items: &[Item<'_>],
    names: &[Shown<'_>],
    k: u64,
    store: &mut Contents,
) -> Result<bool, AllocError>
    requires scope { scope_of scene.now ≡ scope (map item_of items.now) }
    requires state { held store.old ≡ before (map item_of items.now) k }
    ensures state { OnOk result (held store.new ≡ before (map item_of items.now) (suc k)) }
    ensures goes { IfOk result (λ on. on ≡ goes (after (map item_of items.now) k)) }
    ensures text { OnOk result (text.new.items ≡ text.old.items ++ shown_edge (map shown_of names.now) (map item_of items.now) k) }
{
    let found = store.vectors(alloc)?;
    let on = step(alloc, scene, items, store)?;
    push_made(alloc, text, scene, items, names, k, &found, store)?;
    Ok(on)
}

/// Makes the edges of a run, and appends them. It answers how many there are after the reset's.
fn push_edges(
    alloc: Global,
    text: &mut Vec<u8>,
    scene: &Scene,
    items: &[Item<'_>],
    names: &[Shown<'_>],
    store: &mut Contents,
    cycles: u64,
) -> Result<u64, AllocError>
    requires scope { scope_of scene.now ≡ scope (map item_of items.now) }
    requires start { held store.old ≡ before (map item_of items.now) 0 }
    ensures last { IfOk result (λ k. IsLast (map item_of items.now) cycles k) }
    ensures text { IfOk result (λ k. text.new.items ≡ text.old.items
        ++ edges_text (map shown_of names.now) (map item_of items.now) (suc k)) }
{
    for k in 0..cycles {
        let on = push_step(alloc, text, scene, items, names, k, store)?;
        if !on {
            return Ok(k);
        }
    }
    push_step(alloc, text, scene, items, names, cycles, store)?;
    Ok(cycles)
}

/// Appends the dump of a module from its first edge on, whose names that are shown are known.
fn push_whole(
    alloc: Global,
    text: &mut Vec<u8>,
    scene: &Scene,
    items: &[Item<'_>],
    names: &[Shown<'_>],
    store: &mut Contents,
    cycles: u64,
) -> Result<u64, AllocError>
    requires scope { scope_of scene.now ≡ scope (map item_of items.now) }
    requires empty { held store.old ≡ nothing }
    ensures last { IfOk result (λ k. IsLast (map item_of items.now) cycles k) }
    ensures text { IfOk result (λ k. text.new.items ≡ text.old.items
        ++ (start_text (map shown_of names.now) (before (map item_of items.now) 0)
        ++ edges_text (map shown_of names.now) (map item_of items.now) (suc k))) }
{
    begin(alloc, scene, items, store)?;
    push_start(alloc, text, names, store)?;
    let last = push_edges(alloc, text, scene, items, names, store, cycles)?;
    Ok(last)
}

/// Appends the dump of a module, whose names that are shown are known.
fn push_run(
    alloc: Global,
    text: &mut Vec<u8>,
    name: &[u8],
    scene: &Scene,
    items: &[Item<'_>],
    names: &[Shown<'_>],
    cycles: u64,
) -> Result<u64, AllocError>
    requires scope { scope_of scene.now ≡ scope (map item_of items.now) }
    requires names { map shown_of names.now ≡ shown (map item_of items.now) }
    ensures last { IfOk result (λ k. IsLast (map item_of items.now) cycles k) }
    ensures text { IfOk result (λ k. text.new.items ≡ text.old.items ++ dump (text_of name.now) (map item_of items.now) (suc k)) }
{
    push_head(text, name, names)?;
    let mut store = Contents::new(alloc);
    let last = push_whole(alloc, text, scene, items, names, &mut store, cycles)?;
    Ok(last)
}

/// Appends the dump of a module of this name at work: its registers hold 0, then there is the edge of the reset, and then edges until
/// `done` or `full` is up, or until there were as many as are allowed. It answers how many there were after the reset's.
///
/// # Errors
///
/// Only where memory runs out, as it does for a number of 2^62 bits; what is appended by then says nothing.
pub fn push_waves<'a>(
    alloc: Global,
    text: &mut Vec<u8>,
    name: &[u8],
    items: &'a [Item<'a>],
    cycles: u64,
) -> Result<u64, AllocError>
    ensures last { IfOk result (λ k. IsLast (map item_of items.now) cycles k) }
    ensures text { IfOk result (λ k. text.new.items ≡ text.old.items ++ dump (text_of name.now) (map item_of items.now) (suc k)) }
{
    let scene = Scene::new(alloc, items)?;
    let names = shown_names(alloc, &scene, items)?;
    let last = push_run(alloc, text, name, &scene, items, &names, cycles)?;
    Ok(last)
}
