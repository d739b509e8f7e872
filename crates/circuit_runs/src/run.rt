//! A run of a net's module.

ghost use Rattle.std.specs.Prelude.{◌≡◌, ◌<◌, ◌≤◌, ◌^◌, ℕ, IfOk, OnOk, IfSome, IfNone, map, nat_eq};
ghost use Rattle.circuit_module.specs.Stands.{Small, value_number};
ghost use Rattle.circuit_runs.specs.Running.{after, ComesOf, Goes, IsDone, Shows, ShowsLast};
ghost use Rattle.verilog_tree.specs.Meaning.{edge as edge_of, scope, set_vec};
ghost use Rattle.verilog_tree.specs.Names.{text_of};
ghost use Rattle.verilog_tree.specs.Views.{item_of};
ghost use Rattle.verilog_run.specs.Held.{held, nothing};
ghost use Rattle.verilog_run.specs.Scopes.{scope_of};

use crate::numbers::{small, value_of};
use crate::outcome::Outcome;
use pcf_values::Val;
use std::alloc::{AllocError, Global};
use verilog_run::{Contents, Scene, next_edge};
use verilog_tree::Item;
use wide_numbers::Number;

/// One edge with `rst` as told.
fn edge(
    alloc: Global,
    scene: &Scene,
    items: &[Item<'_>],
    store: &mut Contents,
    rst: u128,
) -> Result<(), AllocError>
    requires { scope_of scene.now ≡ scope (map item_of items.now) }
    ensures { OnOk result (held store.new ≡ edge_of (map item_of items.now) (set_vec "rst" rst (held store.old))) }
{
    let number = Number::of(alloc, rst)?;
    store.set_vector(alloc, b"rst", number)?;
    next_edge(scene, items, store)
}

/// Whether a register is 0.
fn is_down(alloc: Global, store: &Contents, name: &[u8]) -> Result<bool, AllocError>
    ensures { IfOk result (λ b. b ≡ nat_eq ((held store.now).vec (text_of name.now)) 0) }
{
    let n = store.vector(alloc, name)?;
    Ok(n.is_zero())
}

/// What `result` says.
fn result_of(alloc: Global, store: &Contents) -> Result<Option<Val>, AllocError>
    ensures some { IfOk result (λ o. IfSome o (λ v. (value_number v ≡ (held store.now).vec "result") × Small v)) }
    ensures none { IfOk result (λ o. IfNone o (2 ^ 64 < (held store.now).vec "result")) }
{
    let n = store.vector(alloc, b"result")?;
    value_of(alloc, &n)
}

/// What `moves` says.
fn moves_of(alloc: Global, store: &Contents) -> Result<Option<u64>, AllocError>
    ensures some { IfOk result (λ o. IfSome o (λ m. (m ≡ (held store.now).vec "moves") × (m < 2 ^ 64))) }
    ensures none { IfOk result (λ o. IfNone o (2 ^ 64 ≤ (held store.now).vec "moves")) }
{
    let n = store.vector(alloc, b"moves")?;
    small(alloc, &n)
}

/// What is told where `done` is up.
fn ended(alloc: Global, store: &Contents, k: u64) -> Result<Outcome, AllocError>
    requires { IsDone (held store.now) }
    ensures { IfOk result (λ o. Shows (held store.now) k o) }
{
    match result_of(alloc, store)? {
        Some(v) => match moves_of(alloc, store)? {
            Some(m) => Ok(Outcome::Ended(v, m, k)),
            None => Ok(Outcome::Odd(k)),
        },
        None => Ok(Outcome::Odd(k)),
    }
}

/// What is told, where `done` or `full` is up.
fn shown(alloc: Global, store: &Contents, k: u64) -> Result<Option<Outcome>, AllocError>
    ensures some { IfOk result (λ o. IfSome o (λ p. Shows (held store.now) k p)) }
    ensures none { IfOk result (λ o. IfNone o (Goes (held store.now))) }
{
    let not_full = is_down(alloc, store, b"full")?;
    if !not_full {
        return Ok(Some(Outcome::Full(k)));
    }
    let not_done = is_down(alloc, store, b"done")?;
    if not_done {
        return Ok(None);
    }
    let told = ended(alloc, store, k)?;
    Ok(Some(told))
}

/// What is told after the last edge.
fn last(alloc: Global, store: &Contents, cycles: u64) -> Result<Outcome, AllocError>
    ensures { IfOk result (λ o. ShowsLast (held store.now) cycles o) }
{
    match shown(alloc, store, cycles)? {
        Some(told) => Ok(told),
        None => Ok(Outcome::Waits),
    }
}

/// The run of a module's items from the reset on.
fn run_from(
    alloc: Global,
    scene: &Scene,
    items: &[Item<'_>],
    store: &mut Contents,
    cycles: u64,
) -> Result<Outcome, AllocError>
    requires scope { scope_of scene.now ≡ scope (map item_of items.now) }
    requires reset { held store.old ≡ after (map item_of items.now) 0 }
    ensures { IfOk result (λ o. ComesOf (map item_of items.now) cycles o) }
{
    for k in 0..cycles {
        match shown(alloc, store, k)? {
            Some(told) => return Ok(told),
            None => edge(alloc, scene, items, store, 0)?,
        }
    }
    let told = last(alloc, store, cycles)?;
    Ok(told)
}

/// The run of a module's items, from registers that hold 0.
fn run_whole(
    alloc: Global,
    scene: &Scene,
    items: &[Item<'_>],
    store: &mut Contents,
    cycles: u64,
) -> Result<Outcome, AllocError>
    requires scope { scope_of scene.now ≡ scope (map item_of items.now) }
    requires empty { held store.old ≡ nothing }
    ensures { IfOk result (λ o. ComesOf (map item_of items.now) cycles o) }
{
    edge(alloc, scene, items, store, 1)?;
    run_from(alloc, scene, items, store, cycles)
}

/// What a run of a module's items comes to, within so many edges after its reset.
///
/// # Errors
///
/// `AllocError` where there is no memory for what the module holds.
pub fn run_items(alloc: Global, items: &[Item<'_>], cycles: u64) -> Result<Outcome, AllocError>
    ensures { IfOk result (λ o. ComesOf (map item_of items.now) cycles o) }
{
    let scene = Scene::new(alloc, items)?;
    let mut store = Contents::new(alloc);
    let told = run_whole(alloc, &scene, items, &mut store, cycles);
    drop(store);
    told
}
