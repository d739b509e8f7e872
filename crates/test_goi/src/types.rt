//! Checking of trees that are as high and as large as the reader lets through, and higher.

ghost use Rattle.std.specs.Prelude.{◌≤◌, IsTrue};
ghost use Rattle.pcf_values.specs.Named.{named_height};
ghost use Rattle.pcf_values.specs.Views.{named_of};

use pcf_types::{NotGround, TypeFault, ground, resolve_and_type};
use pcf_values::{Ident, Named, Operator, Raw, Term, Ty, Typed};
use std::alloc::{AllocError, Global};
use std::test::Fail;

/// Whether a tree of words `succ`, sums and functions alone is no higher than this.
fn fits(tree: &Named, room: u32) -> bool
    ensures { IsTrue result → named_height (named_of tree.now) ≤ room }
{
    if room == 0 {
        return false;
    }
    let room = room - 1;
    match &tree.raw {
        Raw::Number(_) | Raw::Name(_) => true,
        Raw::Succ(a) | Raw::Fun(_, _, a) => fits(a, room),
        Raw::Binary(_, a, b) => fits(a, room) && fits(b, room),
        _ => false,
    }
}

/// The answer for a tree of any height that a test builds.
fn typed(alloc: Global, tree: &Named) -> Result<Box<Typed>, TypeFault> {
    if !fits(tree, 100_000) {
        return Err(TypeFault::NoMemory);
    }
    Ok(Box::new(alloc, resolve_and_type(alloc, tree)?)?)
}

/// A tree of this form, at the place 0.
fn over(alloc: Global, raw: Raw) -> Result<Box<Named>, AllocError> {
    Ok(Box::new(alloc, Named { at: 0, raw })?)
}

/// `fun`, a name, a type, and a body.
fn under(alloc: Global, name: &str, ty: Ty, body: Box<Named>) -> Result<Box<Named>, AllocError> {
    let name = Ident::from_text(alloc, name)?;
    over(alloc, Raw::Fun(name, ty, body))
}

/// `v` under so many binders of `w`, and under two of `v` outside them.
fn many_binders(alloc: Global, count: u32) -> Result<Box<Named>, AllocError> {
    let mut tree = over(alloc, Raw::Name(Ident::from_text(alloc, "v")?))?;
    for _ in 0..count {
        tree = under(alloc, "w", Ty::Nat, tree)?;
    }
    tree = under(alloc, "v", Ty::Nat, tree)?;
    under(alloc, "v", Ty::Nat, tree)
}

/// The index of the variable that stands under functions alone.
fn innermost(term: &Term) -> Option<u32> {
    let mut term = term;
    while let Term::Fun(_, body) = term {
        term = body;
    }
    match term {
        Term::Var(index) => Some(*index),
        _ => None,
    }
}

/// Whether the tree is no number, and the variable inside has this index.
fn is_function_of(alloc: Global, tree: &Named, index: u32) -> bool {
    match typed(alloc, tree) {
        Ok(program) => ground(&program) == Err(NotGround)
            && innermost(program.term()) == Some(index),
        Err(_) => false,
    }
}

#[test]
fn a_variable_under_many_binders(rt: HostRuntime) -> Result<(), Fail> {
    let tree = many_binders(rt.alloc(), 499)?;
    assert!(rt; is_function_of(rt.alloc(), &tree, 499));
    Ok(())
}

/// `nat -> nat -> ..`, with so many `nat`.
fn wide(alloc: Global, count: u32) -> Result<Ty, AllocError> {
    let mut ty = Ty::Nat;
    for _ in 1..count {
        ty = Ty::Arrow(Box::new(alloc, Ty::Nat)?, Box::new(alloc, ty)?);
    }
    Ok(ty)
}

/// `fun v`, with that type, and `v`.
fn identity(alloc: Global, count: u32) -> Result<Box<Named>, AllocError> {
    let body = over(alloc, Raw::Name(Ident::from_text(alloc, "v")?))?;
    under(alloc, "v", wide(alloc, count)?, body)
}

/// Whether the tree has this type.
fn has_type(alloc: Global, tree: &Named, ty: &Ty) -> bool {
    match typed(alloc, tree) {
        Ok(program) => program.ty().same(ty),
        Err(_) => false,
    }
}

/// The type of that identity.
fn type_of_identity(alloc: Global, count: u32) -> Result<Ty, AllocError> {
    let from = Box::new(alloc, wide(alloc, count)?)?;
    Ok(Ty::Arrow(from, Box::new(alloc, wide(alloc, count)?)?))
}

/// Whether the identity on a type of 500 parts has the type that it should have.
fn takes_a_high_type(alloc: Global) -> Result<bool, AllocError> {
    let tree = identity(alloc, 500)?;
    let whole = type_of_identity(alloc, 500)?;
    Ok(has_type(alloc, &tree, &whole))
}

#[test]
fn a_high_type(rt: HostRuntime) -> Result<(), Fail> {
    assert!(rt; takes_a_high_type(rt.alloc())?);
    Ok(())
}

/// This many `succ` before a number.
fn tower(alloc: Global, height: u32) -> Result<Box<Named>, AllocError> {
    let mut tree = over(alloc, Raw::Number(0))?;
    for _ in 0..height {
        tree = over(alloc, Raw::Succ(tree))?;
    }
    Ok(tree)
}

/// A sum of so many towers and one more, each with this many `succ`, the first with one more: for 63 towers of 510, 32,768 nodes.
fn towers(alloc: Global, count: u32, height: u32) -> Result<Box<Named>, AllocError> {
    let mut sum = over(alloc, Raw::Succ(tower(alloc, height)?))?;
    for _ in 0..count {
        let part = tower(alloc, height)?;
        sum = over(alloc, Raw::Binary(Operator::Plus, sum, part))?;
    }
    Ok(sum)
}

/// Whether the tree has the type `nat`.
fn is_number(alloc: Global, tree: &Named) -> bool {
    match typed(alloc, tree) {
        Ok(program) => ground(&program).is_ok(),
        Err(_) => false,
    }
}

#[test]
fn the_highest_tree_and_the_largest(rt: HostRuntime) -> Result<(), Fail> {
    let tree = tower(rt.alloc(), 2_599)?;
    assert!(rt; is_number(rt.alloc(), &tree));
    let sum = towers(rt.alloc(), 63, 510)?;
    assert!(rt; is_number(rt.alloc(), &sum));
    Ok(())
}
