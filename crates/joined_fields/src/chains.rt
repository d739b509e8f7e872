//! Statements one after the other.

ghost use Rattle.std.specs.Prelude.{◌≡◌, ◌<◌, ◌+◌, ◌^◌, Option, Some, None, IfOk, map};
ghost use Rattle.verilog_tree.specs.Names.{text_of};
ghost use Rattle.verilog_tree.specs.Tree.{name, sized, Stmt};
ghost use Rattle.verilog_tree.specs.Views.{stmt_of, expr_of};
ghost use Rattle.circuit_module.specs.Fixed.{set, block};
ghost use Rattle.joined_module.specs.Names.{found};
ghost use Rattle.joined_module.specs.Module.{idle_sets, field_sets, row_stmt_of, fetch_sets, list_sets};
ghost use Rattle.joined_module.specs.Ports.{held_sets};
ghost use Rattle.joined_data.specs.Views.{row_view};
ghost use Rattle.joined_fields.specs.Views.{field_view, group_name};
ghost use Rattle.joined_fields.specs.Parts.{with_next, chain_of, chain_view, chained};

use crate::fields::Field;
use crate::names::{Group, grouped, joined};
use bumpalo::Bump;
use joined_data::{Row, figured};
use joined_fixed::{put_name, put_seq, put_set, put_sized, put_statement};
use std::alloc::{AllocError, Global};
use verilog_tree::Statement;

/// Statements one after the other, if there are any.
#[derive(Clone, Copy)]
pub(crate) enum Chain<'a> {
    /// None.
    Empty,
    /// These.
    Linked(&'a Statement<'a>),
}

/// A statement in front of others, if there are any.
fn with_next<'a>(
    bump: &'a Bump,
    s: &'a Statement<'a>,
    next: Chain<'a>,
) -> Result<Chain<'a>, AllocError>
    ensures { IfOk result (λ r. chain_view r ≡ Some (with_next (stmt_of s.now) (chain_view next.entry))) }
{
    match next {
        Chain::Empty => Ok(Chain::Linked(s)),
        Chain::Linked(next) => {
            let both = put_seq(bump, s, next)?;
            Ok(Chain::Linked(both))
        }
    }
}

/// What there is of them.
fn closed<'a>(bump: &'a Bump, chain: Chain<'a>) -> Result<&'a Statement<'a>, AllocError>
    ensures { IfOk result (λ r. stmt_of r.now ≡ chained (chain_view chain.entry)) }
{
    match chain {
        Chain::Empty => put_statement(bump, &Statement::Skip),
        Chain::Linked(s) => put_statement(bump, s),
    }
}

/// What is found for a field is set to a number.
fn found_set<'a>(
    alloc: Global,
    bump: &'a Bump,
    field: &Field<'a>,
    n: u64,
) -> Result<&'a Statement<'a>, AllocError>
    ensures { IfOk result (λ r. stmt_of r.now ≡ set (found (field_view field.now).title) (sized (field_view field.now).bits n)) }
{
    let title = joined(alloc, bump, b"found_", field.title)?;
    let number = put_sized(bump, field.bits, n)?;
    put_set(bump, title, number)
}

/// The fields of a row that aren't idle.
fn row_chain<'a>(
    alloc: Global,
    bump: &'a Bump,
    fields: &[Field<'a>],
    row: &Row<'a>,
) -> Result<Chain<'a>, AllocError>
    ensures { IfOk result (λ r. chain_view r ≡ chain_of (field_sets (map field_view fields.now) (row_view row.now))) }
{
    match fields {
        [] => Ok(Chain::Empty),
        [first, rest @ ..] => {
            let next = row_chain(alloc, bump, rest, row)?;
            let n = figured(&first.says, row);
            if n == first.idle {
                Ok(next)
            } else {
                let s = found_set(alloc, bump, first, n)?;
                with_next(bump, s, next)
            }
        }
    }
}

/// What a row sets.
#[tactic(auto, using(crate::proofs::Blocks::chain_block))]
pub(crate) fn row_statement<'a>(
    alloc: Global,
    bump: &'a Bump,
    fields: &[Field<'a>],
    row: &Row<'a>,
) -> Result<&'a Statement<'a>, AllocError>
    ensures { IfOk result (λ r. stmt_of r.now ≡ row_stmt_of (map field_view fields.now) (row_view row.now)) }
{
    let chain = row_chain(alloc, bump, fields, row)?;
    closed(bump, chain)
}

/// The fields without a row.
fn idle_chain<'a>(
    alloc: Global,
    bump: &'a Bump,
    fields: &[Field<'a>],
) -> Result<Chain<'a>, AllocError>
    ensures { IfOk result (λ r. chain_view r ≡ chain_of (idle_sets (map field_view fields.now))) }
{
    match fields {
        [] => Ok(Chain::Empty),
        [first, rest @ ..] => {
            let next = idle_chain(alloc, bump, rest)?;
            let s = found_set(alloc, bump, first, first.idle)?;
            with_next(bump, s, next)
        }
    }
}

/// What is set where there is no row.
#[tactic(auto, using(crate::proofs::Blocks::chain_block))]
pub(crate) fn idle_statement<'a>(
    alloc: Global,
    bump: &'a Bump,
    fields: &[Field<'a>],
) -> Result<&'a Statement<'a>, AllocError>
    ensures { IfOk result (λ r. stmt_of r.now ≡ block (idle_sets (map field_view fields.now))) }
{
    let chain = idle_chain(alloc, bump, fields)?;
    closed(bump, chain)
}

/// A field takes what was found for it.
fn fetch_set<'a>(
    alloc: Global,
    bump: &'a Bump,
    field: &Field<'a>,
) -> Result<&'a Statement<'a>, AllocError>
    ensures { IfOk result (λ r. stmt_of r.now ≡ set (field_view field.now).title (name (found (field_view field.now).title))) }
{
    let title = joined(alloc, bump, b"found_", field.title)?;
    let e = put_name(bump, title)?;
    put_set(bump, field.title, e)
}

/// The fields take what was found for them.
fn fetch_chain<'a>(
    alloc: Global,
    bump: &'a Bump,
    fields: &[Field<'a>],
) -> Result<Chain<'a>, AllocError>
    ensures { IfOk result (λ r. chain_view r ≡ chain_of (fetch_sets (map field_view fields.now))) }
{
    match fields {
        [] => Ok(Chain::Empty),
        [first, rest @ ..] => {
            let next = fetch_chain(alloc, bump, rest)?;
            let s = fetch_set(alloc, bump, first)?;
            with_next(bump, s, next)
        }
    }
}

/// The same as one statement.
///
/// # Errors
///
/// `AllocError` where there is no memory for it.
#[tactic(auto, using(crate::proofs::Blocks::chain_block))]
pub fn fetch_statement<'a>(
    alloc: Global,
    bump: &'a Bump,
    fields: &[Field<'a>],
) -> Result<&'a Statement<'a>, AllocError>
    ensures { IfOk result (λ r. stmt_of r.now ≡ block (fetch_sets (map field_view fields.now))) }
{
    let chain = fetch_chain(alloc, bump, fields)?;
    closed(bump, chain)
}

/// A register of one group takes what one of another is.
fn list_set<'a>(
    alloc: Global,
    bump: &'a Bump,
    here: Group,
    next: Group,
    i: u64,
) -> Result<&'a Statement<'a>, AllocError>
    ensures { IfOk result (λ r. stmt_of r.now ≡ set (group_name here i) (name (group_name next i))) }
{
    let to = grouped(alloc, bump, here, i)?;
    let from = grouped(alloc, bump, next, i)?;
    let e = put_name(bump, from)?;
    put_set(bump, to, e)
}

/// So many of them do, from one on.
fn list_chain<'a>(
    alloc: Global,
    bump: &'a Bump,
    here: Group,
    next: Group,
    i: u64,
    n: u64,
) -> Result<Chain<'a>, AllocError>
    requires few { i + n < 2 ^ 64 }
    ensures { IfOk result (λ r. chain_view r ≡ chain_of (list_sets (group_name here) (group_name next) i n)) }
{
    if n == 0 {
        Ok(Chain::Empty)
    } else {
        let rest = list_chain(alloc, bump, here, next, i + 1, n - 1)?;
        let s = list_set(alloc, bump, here, next, i)?;
        with_next(bump, s, rest)
    }
}

/// The same as one statement.
///
/// # Errors
///
/// `AllocError` where there is no memory for it.
#[tactic(auto, using(crate::proofs::Blocks::chain_block))]
pub fn list_statement<'a>(
    alloc: Global,
    bump: &'a Bump,
    here: Group,
    next: Group,
    n: u64,
) -> Result<&'a Statement<'a>, AllocError>
    ensures { IfOk result (λ r. stmt_of r.now ≡ block (list_sets (group_name here) (group_name next) 0 n)) }
{
    let chain = list_chain(alloc, bump, here, next, 0, n)?;
    closed(bump, chain)
}
