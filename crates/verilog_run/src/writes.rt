//! What the clock's blocks are to write.

ghost use Rattle.std.specs.Prelude.{◌≡◌, ◌++◌, ◌∷◌, [], OnOk};
ghost use Rattle.verilog_tree.specs.Meaning.{set_vec};
ghost use Rattle.verilog_tree.specs.Names.{text_of};
ghost use Rattle.verilog_tree.specs.Meaning.{Store};
ghost use Rattle.verilog_run.specs.Held.{held, with_word};
ghost use Rattle.verilog_run.specs.Writes.{after_all, after_one};

use crate::contents::Contents;
use std::alloc::{AllocError, Global};
use wide_numbers::Number;

/// A number that is to be written.
#[derive(Drop)]
pub(crate) enum Write {
    /// Into a vector.
    Vector(Vec<u8>, Number),
    /// Into a word of a memory.
    Word(Vec<u8>, Number, Number),
}

/// Adds one behind the others.
fn add(writes: &mut Vec<Write>, write: Write) -> Result<(), AllocError>
    ensures { OnOk result ((S : Store) → after_all writes.new.items S ≡ after_one write (after_all writes.old.items S)) }
{
    writes.push(write)?;
    Ok(())
}

/// A vector is to be a number.
pub(crate) fn add_vector(
    alloc: Global,
    writes: &mut Vec<Write>,
    name: &[u8],
    number: Number,
) -> Result<(), AllocError>
    ensures { OnOk result ((S : Store) → after_all writes.new.items S
        ≡ set_vec (text_of name.now) number (after_all writes.old.items S)) }
{
    let name = Vec::from_slice(alloc, name)?;
    add(writes, Write::Vector(name, number))
}

/// A word of a memory is to be a number.
pub(crate) fn add_word(
    alloc: Global,
    writes: &mut Vec<Write>,
    name: &[u8],
    at: &Number,
    number: Number,
) -> Result<(), AllocError>
    ensures { OnOk result ((S : Store) → after_all writes.new.items S
        ≡ with_word (text_of name.now) at.now number (after_all writes.old.items S)) }
{
    let name = Vec::from_slice(alloc, name)?;
    let at = at.copy(alloc)?;
    add(writes, Write::Word(name, at, number))
}

/// Writes one.
fn write_one(alloc: Global, store: &mut Contents, write: &Write) -> Result<(), AllocError>
    ensures { OnOk result (held store.new ≡ after_one write.now (held store.old)) }
{
    match write {
        Write::Vector(x, n) => {
            let n = n.copy(alloc)?;
            store.set_vector(alloc, x, n)
        }
        Write::Word(m, i, n) => {
            let n = n.copy(alloc)?;
            store.set_word(alloc, m, i, n)
        }
    }
}

/// Writes all, from the first to the last.
pub(crate) fn write_all(
    alloc: Global,
    store: &mut Contents,
    writes: &[Write],
) -> Result<(), AllocError>
    ensures { OnOk result (held store.new ≡ after_all writes.now (held store.old)) }
{
    for write in writes {
        write_one(alloc, store, write)?;
    }
    Ok(())
}
