//! What assignments write.

ghost use Rattle.std.specs.Prelude.{◌≡◌, OnOk};
ghost use Rattle.verilog_tree.specs.Meaning.{Store, set_word as set_word_in, write as write_of};
ghost use Rattle.verilog_tree.specs.Names.{text_of};
ghost use Rattle.verilog_tree.specs.Views.{expr_of, target_of};
ghost use Rattle.verilog_run.specs.Held.{held};
ghost use Rattle.verilog_run.specs.Scopes.{scope_of};
ghost use Rattle.verilog_run.specs.Writes.{after_all};

use crate::contents::Contents;
use crate::scene::Scene;
use crate::value::{assigned, own};
use crate::writes::{Write, add_vector, add_word};
use std::alloc::AllocError;
use verilog_tree::{Expression, Place};
use wide_numbers::Number;

/// A word of a memory, where it has that word.
fn set_word(
    scene: &Scene,
    store: &mut Contents,
    name: &[u8],
    at: &Number,
    number: Number,
) -> Result<(), AllocError>
    ensures { OnOk result (held store.new
        ≡ set_word_in (text_of name.now) ((scope_of scene.now).words (text_of name.now)) at.now number (held store.old)) }
{
    let count = scene.words(name)?;
    if at.is_below(&count) {
        store.set_word(scene.alloc, name, at, number)?;
        return Ok(());
    }
    Ok(())
}

/// An assignment of a block that settles.
pub(crate) fn assign(
    scene: &Scene,
    store: &mut Contents,
    place: &Place<'_>,
    e: &Expression<'_>,
) -> Result<(), AllocError>
    ensures { OnOk result (held store.new
        ≡ write_of (scope_of scene.now) (held store.old) (target_of place.now) (expr_of e.now) (held store.old)) }
{
    match place {
        Place::Whole(x) => {
            let number = assigned(scene, store, x, e)?;
            store.set_vector(scene.alloc, x, number)
        }
        Place::Word(m, i) => {
            let at = own(scene, store, i)?;
            let number = assigned(scene, store, m, e)?;
            set_word(scene, store, m, &at, number)
        }
    }
}

/// A word of a memory is to be a number, where it has that word.
fn add_word_in(
    scene: &Scene,
    writes: &mut Vec<Write>,
    name: &[u8],
    at: &Number,
    number: Number,
) -> Result<(), AllocError>
    ensures { OnOk result ((S : Store) → after_all writes.new.items S
        ≡ set_word_in (text_of name.now) ((scope_of scene.now).words (text_of name.now)) at.now number (after_all writes.old.items S)) }
{
    let count = scene.words(name)?;
    if at.is_below(&count) {
        add_word(scene.alloc, writes, name, at, number)?;
        return Ok(());
    }
    Ok(())
}

/// An assignment of the clock's block, which reads all as it was before.
pub(crate) fn assign_next(
    scene: &Scene,
    read: &Contents,
    writes: &mut Vec<Write>,
    place: &Place<'_>,
    e: &Expression<'_>,
) -> Result<(), AllocError>
    ensures { OnOk result ((S : Store) → after_all writes.new.items S
        ≡ write_of (scope_of scene.now) (held read.now) (target_of place.now) (expr_of e.now) (after_all writes.old.items S)) }
{
    match place {
        Place::Whole(x) => {
            let number = assigned(scene, read, x, e)?;
            add_vector(scene.alloc, writes, x, number)
        }
        Place::Word(m, i) => {
            let at = own(scene, read, i)?;
            let number = assigned(scene, read, m, e)?;
            add_word_in(scene, writes, m, &at, number)
        }
    }
}
