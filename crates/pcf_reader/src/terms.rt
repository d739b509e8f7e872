//! The parts of a term while it is read: each is a tree and its height as written, which counts parentheses.

ghost use Rattle.std.specs.Prelude.{◌≡◌, ◌+◌, ◌≤◌, IfOk, IfErr};
ghost use Rattle.pcf_reader.specs.Seen.{binder_of, part_of, word_of};
ghost use Rattle.pcf_values.specs.Views.{named_of, raw_of, ty_of};
ghost use Rattle.pcf_reader.specs.Grammar.{higher, join, binary, app_part, choice_part};
ghost use Rattle.pcf_values.specs.Named.{place_of, word_at as word_tree, pair_at as pair_tree, bind_at as bind_tree};
ghost use Rattle.pcf_reader.specs.Sizes.{most_read_height};

use crate::fault::ReadFault;
use crate::token::{Binder, Word};
use pcf_values::{Ident, Named, Operator, Raw, Ty};
use std::alloc::Global;

/// A term that has been read, and its height as written.
#[derive(Drop)]
pub struct Part {
    pub tree: Box<Named>,
    pub height: u32,
}

/// The place of a tree.
fn place_of(tree: &Named) -> u32
    ensures { result ≡ place_of (named_of tree.now) }
{
    tree.at
}

/// A node over parts that are this high at most.
///
/// # Errors
///
/// `NoMemory` alone.
pub fn over(alloc: Global, at: u32, raw: Raw, below: u32) -> Result<Part, ReadFault>
    requires { below ≤ most_read_height }
    ensures ok { IfOk result (λ p. part_of p ≡ record { tree = raw_of raw at; height = below + 1 }) }
    ensures err { IfErr result (λ f. f ≡ ReadFault.NoMemory) }
{
    let tree = Box::new(alloc, Named { at, raw })?;
    Ok(Part {
        tree,
        height: below + 1,
    })
}

/// A term in parentheses.
pub fn wrapped(inner: Part) -> Part
    requires { inner.height ≤ most_read_height }
    ensures { part_of result ≡ higher (λ t. t) (part_of inner) }
{
    Part {
        tree: inner.tree,
        height: inner.height + 1,
    }
}

/// A word and its atom.
///
/// # Errors
///
/// `NoMemory` alone.
pub fn prefixed(alloc: Global, at: u32, word: Word, inner: Part) -> Result<Part, ReadFault>
    requires { inner.height ≤ most_read_height }
    ensures ok { IfOk result (λ p. part_of p ≡ higher (word_tree at (word_of word)) (part_of inner)) }
    ensures err { IfErr result (λ f. f ≡ ReadFault.NoMemory) }
{
    let raw = match word {
        Word::Succ => Raw::Succ(inner.tree),
        Word::Pred => Raw::Pred(inner.tree),
        Word::Part(side) => Raw::Proj(side, inner.tree),
    };
    over(alloc, at, raw, inner.height)
}

/// An operator between two parts, at the place of the left one.
///
/// # Errors
///
/// `NoMemory` alone.
pub fn operated(
    alloc: Global,
    operator: Operator,
    left: Part,
    right: Part,
) -> Result<Part, ReadFault>
    requires { (left.height ≤ most_read_height) × (right.height ≤ most_read_height) }
    ensures ok { IfOk result (λ p. part_of p ≡ binary operator (part_of left) (part_of right)) }
    ensures err { IfErr result (λ f. f ≡ ReadFault.NoMemory) }
{
    let at = place_of(&left.tree);
    let height = left.height.max(right.height);
    over(
        alloc,
        at,
        Raw::Binary(operator, left.tree, right.tree),
        height,
    )
}

/// An application.
///
/// # Errors
///
/// `NoMemory` alone.
pub fn applied(alloc: Global, left: Part, right: Part) -> Result<Part, ReadFault>
    requires { (left.height ≤ most_read_height) × (right.height ≤ most_read_height) }
    ensures ok { IfOk result (λ p. part_of p ≡ app_part (part_of left) (part_of right)) }
    ensures err { IfErr result (λ f. f ≡ ReadFault.NoMemory) }
{
    let at = place_of(&left.tree);
    let height = left.height.max(right.height);
    over(alloc, at, Raw::App(left.tree, right.tree), height)
}

/// A pair.
///
/// # Errors
///
/// `NoMemory` alone.
pub fn paired(alloc: Global, at: u32, left: Part, right: Part) -> Result<Part, ReadFault>
    requires { (left.height ≤ most_read_height) × (right.height ≤ most_read_height) }
    ensures ok { IfOk result (λ p. part_of p ≡ join (pair_tree at) (part_of left) (part_of right)) }
    ensures err { IfErr result (λ f. f ≡ ReadFault.NoMemory) }
{
    let height = left.height.max(right.height);
    over(alloc, at, Raw::Pair(left.tree, right.tree), height)
}

/// A choice.
///
/// # Errors
///
/// `NoMemory` alone.
pub fn chosen(alloc: Global, at: u32, test: Part, yes: Part, no: Part) -> Result<Part, ReadFault>
    requires { (test.height ≤ most_read_height) × (yes.height ≤ most_read_height) × (no.height ≤ most_read_height) }
    ensures ok { IfOk result (λ p. part_of p ≡ choice_part at (part_of test) (part_of yes) (part_of no)) }
    ensures err { IfErr result (λ f. f ≡ ReadFault.NoMemory) }
{
    let height = test.height.max(yes.height.max(no.height));
    over(alloc, at, Raw::Ifz(test.tree, yes.tree, no.tree), height)
}

/// A function or a fixed point.
///
/// # Errors
///
/// `NoMemory` alone.
pub fn bound(
    alloc: Global,
    at: u32,
    binder: Binder,
    name: Ident,
    of: Box<Ty>,
    body: Part,
) -> Result<Part, ReadFault>
    requires { body.height ≤ most_read_height }
    ensures ok { IfOk result (λ p. part_of p ≡ higher (bind_tree at (binder_of binder) name (ty_of of.value)) (part_of body)) }
    ensures err { IfErr result (λ f. f ≡ ReadFault.NoMemory) }
{
    let of = Box::into_inner(of);
    let raw = match binder {
        Binder::Fun => Raw::Fun(name, of, body.tree),
        Binder::Fix => Raw::Fix(name, of, body.tree),
    };
    over(alloc, at, raw, body.height)
}
