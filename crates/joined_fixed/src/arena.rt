//! Parts of trees that are put into an arena, and items that are appended.
//!
//! A tree by value is looked at in all its forms wherever a function could leave. So trees are lent here, and one is taken by value only
//! where its type isn't known.

ghost use Rattle.std.specs.Prelude.{◌≡◌, ◌++◌, [], ◌∷◌, IfOk, OnOk, map};
ghost use Rattle.circuit_module.specs.Fixed.{set};
ghost use Rattle.joined_fixed.specs.Parts.{zeroed};
ghost use Rattle.verilog_tree.specs.Names.{text_of};
ghost use Rattle.verilog_tree.specs.Tree.{branch, cat, name, pick, seq, sized};
ghost use Rattle.verilog_tree.specs.Views.{arms_of, expr_of, item_of, stmt_of};

use bumpalo::Bump;
use std::alloc::AllocError;
use verilog_tree::{Cases, Expression, Item, Place, Statement};

/// Fixed items. A reference to these is one name in a proof, where a reference to a list of items is spelled with all that an item holds.
pub(crate) struct Fixed<'a> {
    /// The items.
    pub(crate) list: &'a [Item<'a>],
}

/// A value, put into the arena.
fn put<'a, T: Copy + Drop>(bump: &'a Bump, value: &T) -> Result<&'a T, AllocError>
    ensures { IfOk result (λ r. r.now ≡ value.now) }
{
    match bump.try_alloc(*value) {
        Ok(r) => Ok(r),
        Err(_) => Err(AllocError),
    }
}

/// An expression, put into the arena.
///
/// # Errors
///
/// `AllocError` where there is no memory for it.
pub fn put_expression<'a>(
    bump: &'a Bump,
    e: &Expression<'a>,
) -> Result<&'a Expression<'a>, AllocError>
    ensures { IfOk result (λ r. expr_of r.now ≡ expr_of e.now) }
{
    let kept = put(bump, e)?;
    Ok(kept)
}

/// A name.
///
/// # Errors
///
/// `AllocError` where there is no memory for it.
pub fn put_name<'a>(bump: &'a Bump, x: &'a [u8]) -> Result<&'a Expression<'a>, AllocError>
    ensures { IfOk result (λ r. expr_of r.now ≡ name (text_of x.now)) }
{
    put_expression(bump, &Expression::Name(x))
}

/// A number of so many bits.
///
/// # Errors
///
/// `AllocError` where there is no memory for it.
pub fn put_sized<'a>(bump: &'a Bump, bits: u64, n: u64) -> Result<&'a Expression<'a>, AllocError>
    ensures { IfOk result (λ r. expr_of r.now ≡ sized bits n) }
{
    put_expression(bump, &Expression::Sized(bits, n))
}

/// One behind the other.
///
/// # Errors
///
/// `AllocError` where there is no memory for it.
pub fn put_cat<'a>(
    bump: &'a Bump,
    a: &'a Expression<'a>,
    b: &'a Expression<'a>,
) -> Result<&'a Expression<'a>, AllocError>
    ensures { IfOk result (λ r. expr_of r.now ≡ cat (expr_of a.now) (expr_of b.now)) }
{
    put_expression(bump, &Expression::Cat(a, b))
}

/// One or the other.
///
/// # Errors
///
/// `AllocError` where there is no memory for it.
pub fn put_pick<'a>(
    bump: &'a Bump,
    c: &'a Expression<'a>,
    a: &'a Expression<'a>,
    b: &'a Expression<'a>,
) -> Result<&'a Expression<'a>, AllocError>
    ensures { IfOk result (λ r. expr_of r.now ≡ pick (expr_of c.now) (expr_of a.now) (expr_of b.now)) }
{
    put_expression(bump, &Expression::Pick(c, a, b))
}

/// A statement, put into the arena.
///
/// # Errors
///
/// `AllocError` where there is no memory for it.
pub fn put_statement<'a>(bump: &'a Bump, s: &Statement<'a>) -> Result<&'a Statement<'a>, AllocError>
    ensures { IfOk result (λ r. stmt_of r.now ≡ stmt_of s.now) }
{
    let kept = put(bump, s)?;
    Ok(kept)
}

/// One statement after the other.
///
/// # Errors
///
/// `AllocError` where there is no memory for it.
pub fn put_seq<'a>(
    bump: &'a Bump,
    s: &'a Statement<'a>,
    t: &'a Statement<'a>,
) -> Result<&'a Statement<'a>, AllocError>
    ensures { IfOk result (λ r. stmt_of r.now ≡ seq (stmt_of s.now) (stmt_of t.now)) }
{
    put_statement(bump, &Statement::Seq(s, t))
}

/// One statement or the other.
///
/// # Errors
///
/// `AllocError` where there is no memory for it.
pub fn put_branch<'a>(
    bump: &'a Bump,
    e: &Expression<'a>,
    s: &'a Statement<'a>,
    t: &'a Statement<'a>,
) -> Result<&'a Statement<'a>, AllocError>
    ensures { IfOk result (λ r. stmt_of r.now ≡ branch (expr_of e.now) (stmt_of s.now) (stmt_of t.now)) }
{
    put_statement(bump, &Statement::Branch(*e, s, t))
}

/// x = e
///
/// # Errors
///
/// `AllocError` where there is no memory for it.
pub fn put_set<'a>(
    bump: &'a Bump,
    name: &'a [u8],
    e: &Expression<'a>,
) -> Result<&'a Statement<'a>, AllocError>
    ensures { IfOk result (λ r. stmt_of r.now ≡ set (text_of name.now) (expr_of e.now)) }
{
    put_statement(bump, &Statement::Put(Place::Whole(name), *e))
}

/// A register is set to 0 in front of the others.
///
/// # Errors
///
/// `AllocError` where there is no memory for it.
pub fn put_zeroed<'a>(
    bump: &'a Bump,
    name: &'a [u8],
    rest: &'a Statement<'a>,
) -> Result<&'a Statement<'a>, AllocError>
    ensures { IfOk result (λ r. stmt_of r.now ≡ zeroed (text_of name.now) (stmt_of rest.now)) }
{
    let zero = put_set(bump, name, &Expression::Number(0))?;
    put_seq(bump, zero, rest)
}

/// The arms of a case, put into the arena.
///
/// # Errors
///
/// `AllocError` where there is no memory for it.
pub fn put_arms<'a>(bump: &'a Bump, arms: &Cases<'a>) -> Result<&'a Cases<'a>, AllocError>
    ensures { IfOk result (λ r. arms_of r.now ≡ arms_of arms.now) }
{
    let kept = put(bump, arms)?;
    Ok(kept)
}

/// The values of a list, put into the arena.
///
/// # Errors
///
/// `AllocError` where there is no memory for it.
pub fn put_all<'a, T: Copy>(bump: &'a Bump, values: &Vec<T>) -> Result<&'a [T], AllocError>
    ensures { IfOk result (λ r. r.now ≡ values.now.items) }
{
    let kept = bump.try_alloc_slice_copy(values.as_slice())?;
    Ok(kept)
}

/// Appends fixed items.
pub(crate) fn add_fixed<'a>(items: &mut Vec<Item<'a>>, fixed: &Fixed<'a>) -> Result<(), AllocError>
    ensures { OnOk result (map item_of items.new.items ≡ map item_of items.old.items ++ map item_of fixed.now.list.now) }
{
    items.extend_from_slice(fixed.list)?;
    Ok(())
}

/// Appends a value.
fn add<T: Copy + Drop>(values: &mut Vec<T>, value: &T) -> Result<(), AllocError>
    ensures { OnOk result (values.new.items ≡ values.old.items ++ (value.now ∷ [])) }
{
    values.push(*value)?;
    Ok(())
}

/// Appends an item.
///
/// # Errors
///
/// `AllocError` where there is no memory for it.
pub fn add_item<'a>(items: &mut Vec<Item<'a>>, item: &Item<'a>) -> Result<(), AllocError>
    ensures { OnOk result (map item_of items.new.items ≡ map item_of items.old.items ++ (item_of item.now ∷ [])) }
{
    add(items, item)?;
    Ok(())
}
