//! The block that finds a row.

ghost use Rattle.std.specs.Prelude.{◌≡◌, ◌≤◌, ◌++◌, ◌-◌, [], ◌∷◌, true, false, IfOk, OnOk, length, map};
ghost use Rattle.verilog_tree.specs.Tree.{branch, cases, count, name, part, sized, skip, otherwise, arm};
ghost use Rattle.verilog_tree.specs.Views.{arms_of, expr_of, stmt_of};
ghost use Rattle.joined_module.specs.Module.{row_stmt_of, same_flag, row_if, rows_at, tag_arm, tag_arms, sees_zero_is, zero_stmt};
ghost use Rattle.joined_module.specs.Module.{seen_stmt};
ghost use Rattle.joined_module.specs.Module.{key_stmt, later_stmt, key_arm, key_arms, find_stmt};
ghost use Rattle.joined_data.specs.Views.{row_view, sees_view};
ghost use Rattle.joined_fields.specs.Views.{field_view, widths_view};
ghost use Rattle.joined_fields.specs.Parts.{one_key};

use crate::chains::{idle_statement, row_statement};
use crate::fields::Field;
use crate::widths::Widths;
use bumpalo::Bump;
use joined_data::{Row, Sees};
use joined_fixed::{put_all, put_arms, put_branch, put_seq, put_statement};
use std::alloc::{AllocError, Global};
use verilog_tree::{Cases, Expression, Extent, Statement};

/// Whether a flag is this.
fn same_flag(a: bool, b: bool) -> bool
    ensures { result ≡ same_flag a b }
{
    if a { b } else { !b }
}

/// Appends a row, if so.
fn add_if<'a>(found: &mut Vec<Row<'a>>, so: bool, row: &Row<'a>) -> Result<(), AllocError>
    ensures { OnOk result (map row_view found.new.items ≡ map row_view found.old.items ++ row_if so (row_view row.now) []) }
{
    if so {
        found.push(*row)?;
    }
    Ok(())
}

/// Appends the rows at a key that wait or don't.
fn add_rows_at<'a>(
    found: &mut Vec<Row<'a>>,
    waits: bool,
    key: u64,
    rows: &[Row<'a>],
) -> Result<(), AllocError>
    ensures { OnOk result (map row_view found.new.items ≡ map row_view found.old.items ++ rows_at waits key (map row_view rows.now)) }
{
    match rows {
        [] => Ok(()),
        [first, rest @ ..] => {
            add_if(
                found,
                first.key == key && same_flag(first.waits, waits),
                first,
            )?;
            add_rows_at(found, waits, key, rest)
        }
    }
}

/// The rows at a key that wait or don't.
fn rows_at<'a>(
    alloc: Global,
    bump: &'a Bump,
    waits: bool,
    key: u64,
    rows: &[Row<'a>],
) -> Result<&'a [Row<'a>], AllocError>
    ensures { IfOk result (λ r. map row_view r.now ≡ rows_at waits key (map row_view rows.now)) }
{
    let mut found = Vec::new(alloc);
    add_rows_at(&mut found, waits, key, rows)?;
    let kept = put_all(bump, &found)?;
    Ok(kept)
}

/// The one label of an arm.
fn label<'a>(bump: &'a Bump, bits: u64, n: u64) -> Result<&'a [Expression<'a>], AllocError>
    ensures { IfOk result (λ r. map expr_of r.now ≡ sized bits n ∷ []) }
{
    let labels = [Expression::Sized(bits, n)];
    Ok(bump.try_alloc_slice_copy(&labels)?)
}

/// An arm in front of others.
fn put_arm<'a>(
    bump: &'a Bump,
    bits: u64,
    n: u64,
    statement: &'a Statement<'a>,
    arms: &'a Cases<'a>,
) -> Result<&'a Cases<'a>, AllocError>
    ensures { IfOk result (λ r. arms_of r.now ≡ arm (sized bits n ∷ []) (stmt_of statement.now) [] (arms_of arms.now)) }
{
    let labels = label(bump, bits, n)?;
    put_arms(bump, &Cases::Arm(labels, statement, &[], arms))
}

/// No arm.
fn no_arms<'a>(bump: &'a Bump) -> Result<&'a Cases<'a>, AllocError>
    ensures { IfOk result (λ r. arms_of r.now ≡ otherwise skip) }
{
    let nothing = put_statement(bump, &Statement::Skip)?;
    put_arms(bump, &Cases::Otherwise(nothing))
}

/// The arm of a row that sees a tag, in front of others.
fn tag_arm<'a>(
    alloc: Global,
    bump: &'a Bump,
    tag: u64,
    fields: &[Field<'a>],
    row: &Row<'a>,
    arms: &'a Cases<'a>,
) -> Result<&'a Cases<'a>, AllocError>
    ensures { IfOk result (λ r. arms_of r.now
        ≡ tag_arm tag (map field_view fields.now) (sees_view row.now.sees) (row_view row.now) (arms_of arms.now)) }
{
    match row.sees {
        Sees::Tag(n) => {
            let statement = row_statement(alloc, bump, fields, row)?;
            put_arm(bump, tag, n, statement, arms)
        }
        _ => Ok(arms),
    }
}

/// An arm for each tag.
fn tag_arms<'a>(
    alloc: Global,
    bump: &'a Bump,
    tag: u64,
    fields: &[Field<'a>],
    rows: &[Row<'a>],
) -> Result<&'a Cases<'a>, AllocError>
    ensures { IfOk result (λ r. arms_of r.now ≡ tag_arms tag (map field_view fields.now) (map row_view rows.now)) }
{
    match rows {
        [] => no_arms(bump),
        [first, rest @ ..] => {
            let arms = tag_arms(alloc, bump, tag, fields, rest)?;
            tag_arm(alloc, bump, tag, fields, first, arms)
        }
    }
}

/// Whether a row sees that the value is 0, or that it isn't.
fn sees_zero_is(b: bool, sees: Sees) -> bool
    ensures { result ≡ sees_zero_is b (sees_view sees) }
{
    match sees {
        Sees::Zero(c) => same_flag(b, c),
        _ => false,
    }
}

/// The row that sees whether the value is 0.
fn zero_statement<'a>(
    alloc: Global,
    bump: &'a Bump,
    b: bool,
    fields: &[Field<'a>],
    rows: &[Row<'a>],
) -> Result<&'a Statement<'a>, AllocError>
    ensures { IfOk result (λ r. stmt_of r.now ≡ zero_stmt b (map field_view fields.now) (map row_view rows.now)) }
{
    match rows {
        [] => put_statement(bump, &Statement::Skip),
        [first, rest @ ..] => {
            if sees_zero_is(b, first.sees) {
                row_statement(alloc, bump, fields, first)
            } else {
                zero_statement(alloc, bump, b, fields, rest)
            }
        }
    }
}

/// By the tag that is looked at.
fn tag_statement<'a>(
    alloc: Global,
    bump: &'a Bump,
    tag: u64,
    fields: &[Field<'a>],
    rows: &[Row<'a>],
) -> Result<&'a Statement<'a>, AllocError>
    ensures { IfOk result (λ r. stmt_of r.now
        ≡ cases (part "looked" (count (tag - 1)) (count 0)) (tag_arms tag (map field_view fields.now) (map row_view rows.now))) }
{
    let arms = tag_arms(alloc, bump, tag, fields, rows)?;
    let high = Extent::Count(tag.saturating_sub(1));
    let looked = Expression::Part(b"looked", high, Extent::Count(0));
    put_statement(bump, &Statement::Case(looked, arms))
}

/// By whether the value is 0.
fn both_zeros<'a>(
    alloc: Global,
    bump: &'a Bump,
    fields: &[Field<'a>],
    rows: &[Row<'a>],
) -> Result<&'a Statement<'a>, AllocError>
    ensures { IfOk result (λ r. stmt_of r.now ≡ branch (name "nonzero")
        (zero_stmt false (map field_view fields.now) (map row_view rows.now))
        (zero_stmt true (map field_view fields.now) (map row_view rows.now))) }
{
    let other = zero_statement(alloc, bump, false, fields, rows)?;
    let zero = zero_statement(alloc, bump, true, fields, rows)?;
    put_branch(bump, &Expression::Name(b"nonzero"), other, zero)
}

/// The rows at a key, by what is seen there.
fn key_statement<'a>(
    alloc: Global,
    bump: &'a Bump,
    tag: u64,
    fields: &[Field<'a>],
    rows: &[Row<'a>],
) -> Result<&'a Statement<'a>, AllocError>
    ensures { IfOk result (λ r. stmt_of r.now ≡ key_stmt tag (map field_view fields.now) (map row_view rows.now)) }
{
    match rows {
        [] => put_statement(bump, &Statement::Skip),
        [first, ..] => match first.sees {
            Sees::Nothing => row_statement(alloc, bump, fields, first),
            Sees::Tag(_) => tag_statement(alloc, bump, tag, fields, rows),
            Sees::Zero(_) => both_zeros(alloc, bump, fields, rows),
        },
    }
}

/// Or the row that waits there.
fn later_statement<'a>(
    alloc: Global,
    bump: &'a Bump,
    fields: &[Field<'a>],
    waits: &[Row<'a>],
    s: &'a Statement<'a>,
) -> Result<&'a Statement<'a>, AllocError>
    ensures { IfOk result (λ r. stmt_of r.now ≡ later_stmt (map field_view fields.now) (map row_view waits.now) (stmt_of s.now)) }
{
    match waits {
        [] => Ok(s),
        [first, ..] => {
            let waiting = row_statement(alloc, bump, fields, first)?;
            put_branch(bump, &Expression::Name(b"later"), waiting, s)
        }
    }
}

/// The arm of these rows, in front of others.
fn key_arm<'a>(
    alloc: Global,
    bump: &'a Bump,
    bits: u64,
    tag: u64,
    fields: &[Field<'a>],
    key: u64,
    waits: &[Row<'a>],
    sees: &[Row<'a>],
    arms: &'a Cases<'a>,
) -> Result<&'a Cases<'a>, AllocError>
    ensures { IfOk result (λ r. arms_of r.now
        ≡ key_arm bits tag (map field_view fields.now) key (map row_view waits.now) (map row_view sees.now) (arms_of arms.now)) }
{
    match sees {
        [] => Ok(arms),
        _ => {
            let found = key_statement(alloc, bump, tag, fields, sees)?;
            let statement = later_statement(alloc, bump, fields, waits, found)?;
            put_arm(bump, bits, key, statement, arms)
        }
    }
}

/// The arm of a key, in front of others.
fn one_key<'a>(
    alloc: Global,
    bump: &'a Bump,
    bits: u64,
    tag: u64,
    fields: &[Field<'a>],
    rows: &[Row<'a>],
    key: u64,
    arms: &'a Cases<'a>,
) -> Result<&'a Cases<'a>, AllocError>
    ensures { IfOk result (λ r. arms_of r.now
        ≡ one_key bits tag (map field_view fields.now) (map row_view rows.now) key (arms_of arms.now)) }
{
    let waits = rows_at(alloc, bump, true, key, rows)?;
    let sees = rows_at(alloc, bump, false, key, rows)?;
    key_arm(alloc, bump, bits, tag, fields, key, waits, sees, arms)
}

/// An arm for each key that has a row.
fn key_arms<'a>(
    alloc: Global,
    bump: &'a Bump,
    bits: u64,
    tag: u64,
    fields: &[Field<'a>],
    rows: &[Row<'a>],
) -> Result<&'a Cases<'a>, AllocError>
    ensures { IfOk result (λ r. arms_of r.now
        ≡ key_arms bits tag (map field_view fields.now) (map row_view rows.now) 0 (length rows.now)) }
{
    let mut arms = no_arms(bump)?;
    let mut key = rows.len();
    while key > 0 {
        key = key - 1;
        arms = one_key(alloc, bump, bits, tag, fields, rows, key as u64, arms)?;
    }
    Ok(arms)
}

/// The block that finds a row.
///
/// # Errors
///
/// `AllocError` where there is no memory for it.
pub fn find_statement<'a>(
    alloc: Global,
    bump: &'a Bump,
    w: &Widths,
    fields: &[Field<'a>],
    rows: &[Row<'a>],
) -> Result<&'a Statement<'a>, AllocError>
    ensures { IfOk result (λ r. stmt_of r.now ≡ find_stmt (widths_view w.now) (map row_view rows.now) (map field_view fields.now)) }
{
    let idle = idle_statement(alloc, bump, fields)?;
    let arms = key_arms(alloc, bump, w.key, w.tag, fields, rows)?;
    let found = put_statement(bump, &Statement::Case(Expression::Name(b"goes"), arms))?;
    put_seq(bump, idle, found)
}
