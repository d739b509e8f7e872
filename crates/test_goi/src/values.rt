//! Heights that a program can have, and each call that takes memory.

use pcf_values::{Ident, Named, Raw, Side, Term, Ty, Val};
use std::alloc::{AllocError, Global};
use std::test::Fail;

const GREATEST_HEIGHT: u32 = 2600;

/// A term of this height: `succ` over and over, and 0.
fn tower(alloc: Global, height: u32) -> Result<Box<Term>, AllocError> {
    let mut term = Box::new(alloc, Term::Number(0))?;
    for _ in 1..height {
        term = Box::new(alloc, Term::Succ(term))?;
    }
    Ok(term)
}

/// A named tree of this height: `fst` over and over, and a name.
fn named_tower(alloc: Global, height: u32) -> Result<Box<Named>, AllocError> {
    let raw = Raw::Name(Ident::from_text(alloc, "x")?);
    let mut tree = Box::new(alloc, Named { at: 9, raw })?;
    for at in 1..height {
        let raw = Raw::Proj(Side::Left, tree);
        tree = Box::new(alloc, Named { at, raw })?;
    }
    Ok(tree)
}

/// A type of this height: products that go on at the right.
fn wide_type(alloc: Global, height: u32) -> Result<Box<Ty>, AllocError> {
    let mut ty = Box::new(alloc, Ty::Nat)?;
    for _ in 1..height {
        ty = Box::new(alloc, Ty::Product(Box::new(alloc, Ty::Nat)?, ty))?;
    }
    Ok(ty)
}

/// Whether the copy of the term is a successor.
fn is_copied_as_succ(alloc: Global, term: &Term) -> Result<bool, AllocError> {
    let copy = Box::new(alloc, term.copy(alloc)?)?;
    Ok(matches!(&*copy, Term::Succ(_)))
}

/// Whether the copy of the tree has its place.
fn is_copied_at_its_place(alloc: Global, tree: &Named) -> Result<bool, AllocError> {
    let copy = Box::new(alloc, tree.copy(alloc)?)?;
    Ok(copy.at == tree.at)
}

/// Whether a term of this height is copied.
fn high_term_is_copied(alloc: Global, height: u32) -> Result<bool, AllocError> {
    let term = tower(alloc, height)?;
    is_copied_as_succ(alloc, &term)
}

/// Whether a named tree of this height has its place, and is copied.
fn high_tree_is_copied(alloc: Global, height: u32) -> Result<bool, AllocError> {
    let tree = named_tower(alloc, height)?;
    Ok(tree.at == height.saturating_sub(1) && is_copied_at_its_place(alloc, &tree)?)
}

#[test]
fn the_highest_term_is_copied(rt: HostRuntime) -> Result<(), Fail> {
    assert!(rt; high_term_is_copied(rt.alloc(), GREATEST_HEIGHT)?);
    assert!(rt; high_tree_is_copied(rt.alloc(), GREATEST_HEIGHT)?);
    Ok(())
}

/// Whether the copy of the type is the same type.
fn is_copied(alloc: Global, ty: &Ty) -> Result<bool, AllocError> {
    Ok(ty.copy(alloc)?.same(ty))
}

/// Whether a type of this height is copied.
fn high_type_is_copied(alloc: Global, height: u32) -> Result<bool, AllocError> {
    let ty = wide_type(alloc, height)?;
    is_copied(alloc, &ty)
}

/// Whether types of two heights are one.
fn are_same(alloc: Global, height: u32, other: u32) -> Result<bool, AllocError> {
    let ty = wide_type(alloc, height)?;
    let other = wide_type(alloc, other)?;
    Ok(ty.same(&other))
}

#[test]
fn types_are_copied_and_compared(rt: HostRuntime) -> Result<(), Fail> {
    assert!(rt; high_type_is_copied(rt.alloc(), 1000)?);
    assert!(rt; !are_same(rt.alloc(), 1000, 999)?);
    Ok(())
}

/// Whether the copy of a name has the name's text.
fn keeps_its_text(alloc: Global, text: &str) -> Result<bool, AllocError> {
    let name = Ident::from_text(alloc, text)?;
    Ok(name.copy(alloc)?.as_str() == text)
}

#[test]
fn names_keep_their_text(rt: HostRuntime) -> Result<(), Fail> {
    assert!(rt; keeps_its_text(rt.alloc(), "été")?);
    Ok(())
}

#[test]
fn arithmetic_at_the_borders(rt: HostRuntime) -> Result<(), Fail> {
    let last = Val::Number(u64::MAX);
    let zero = Val::Number(0);
    let rows = [
        (last.succ(), Val::Overflow),
        (zero.pred(), zero),
        (last.plus(Val::Number(1)), Val::Overflow),
        (Val::Number(5).minus(Val::Number(7)), zero),
        (last.times(Val::Number(2)), Val::Overflow),
        (zero.times(Val::Overflow), Val::Overflow),
        (Val::Overflow.minus(last), Val::Overflow),
        (Val::Number(3).times(Val::Number(4)), Val::Number(12)),
    ];
    for (found, wanted) in rows {
        assert!(rt; found == wanted);
    }
    Ok(())
}
