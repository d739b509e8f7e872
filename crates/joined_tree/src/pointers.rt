//! The wires of slots and operands.

ghost use Rattle.std.specs.Prelude.{◌≡◌, ◌≤◌, ◌<◌, ◌+◌, ◌-◌, ◌++◌, ◌^◌, [], ◌∷◌, OnOk, IfOk, length, map};
ghost use Rattle.verilog_tree.specs.Tree.{cat, name, same, sized};
ghost use Rattle.verilog_tree.specs.Views.{expr_of, item_of};
ghost use Rattle.joined_module.specs.Names.{held_name};
ghost use Rattle.joined_module.specs.Fields.{source_expr, picked, sources_exprs, slot_expr, operand_expr, operands_exprs, input_expr};
ghost use Rattle.joined_module.specs.Fields.{by_field};
ghost use Rattle.joined_module.specs.Module.{slot_wires};
ghost use Rattle.joined_data.specs.Views.{origin_view, operand_view, row_view};
ghost use Rattle.joined_data.specs.Figures.{slot_view, input_view};
ghost use Rattle.joined_fields.specs.Views.{group_name};
ghost use Rattle.joined_tree.specs.Parts.{tagged_part, chosen};

use bumpalo::Bump;
use joined_data::{Operand, Origin, Row, Side, Slot, operands_at, origins_at};
use joined_fields::{
    Group, by_field, grouped, literal_field, operand_field, slot_tagged, slot_title, vector_wide,
};
use joined_fixed::{add_item, base, put_cat, put_expression, put_name, put_pick, put_sized};
use std::alloc::{AllocError, Global};
use verilog_tree::{Comparison, Expression, Extent, Item};

/// A name of a group as an expression.
pub(crate) fn put_grouped<'a>(
    alloc: Global,
    bump: &'a Bump,
    group: Group,
    i: u64,
) -> Result<&'a Expression<'a>, AllocError>
    ensures { IfOk result (λ r. expr_of r.now ≡ name (group_name group i)) }
{
    let title = grouped(alloc, bump, group, i)?;
    put_name(bump, title)
}

/// The cell of the first pointer of a list, with another tag.
fn put_part<'a>(
    alloc: Global,
    bump: &'a Bump,
    place: u64,
    tag: u64,
    e: &'a Expression<'a>,
    group: Group,
) -> Result<&'a Expression<'a>, AllocError>
    requires place { place ≤ 64 }
    requires tag { tag ≤ 64 }
    ensures { IfOk result (λ r. expr_of r.now ≡ tagged_part place tag (expr_of e.now) (group_name group 0)) }
{
    let title = grouped(alloc, bump, group, 0)?;
    let high = Extent::Count((place + tag).saturating_sub(1));
    let cell = put_expression(bump, &Expression::Part(title, high, Extent::Count(tag)))?;
    put_cat(bump, cell, e)
}

/// The new cell, with a tag.
fn put_new<'a>(bump: &'a Bump, e: &'a Expression<'a>) -> Result<&'a Expression<'a>, AllocError>
    ensures { IfOk result (λ r. expr_of r.now ≡ cat (name "base") (expr_of e.now)) }
{
    put_cat(bump, base(), e)
}

/// The pointer of an origin.
fn source_expression<'a>(
    alloc: Global,
    bump: &'a Bump,
    place: u64,
    tag: u64,
    e: &'a Expression<'a>,
    origin: Origin,
) -> Result<&'a Expression<'a>, AllocError>
    requires place { place ≤ 64 }
    requires tag { tag ≤ 64 }
    ensures { IfOk result (λ r. expr_of r.now ≡ source_expr place tag (expr_of e.now) (origin_view origin)) }
{
    match origin {
        Origin::Sig(i) => put_grouped(alloc, bump, Group::Sig, u64::from(i)),
        Origin::Boxed(i) => put_grouped(alloc, bump, Group::Boxed, u64::from(i)),
        Origin::Fork(i) => put_grouped(alloc, bump, Group::ForkBox, u64::from(i)),
        Origin::Word(i) => put_grouped(alloc, bump, Group::Word, u64::from(i)),
        Origin::SigPart(_) => put_part(alloc, bump, place, tag, e, Group::Sig),
        Origin::BoxPart(_) => put_part(alloc, bump, place, tag, e, Group::Boxed),
        Origin::New(_) => put_new(bump, e),
        Origin::Bare(_) => put_new(bump, e),
    }
}

/// An expression, or the others where it isn't this number.
fn put_choice<'a>(
    bump: &'a Bump,
    e: &'a Expression<'a>,
    bits: u64,
    n: u64,
    x: &'a Expression<'a>,
    others: &'a Expression<'a>,
) -> Result<&'a Expression<'a>, AllocError>
    ensures { IfOk result (λ r. expr_of r.now ≡ chosen (expr_of e.now) bits n (expr_of x.now) (expr_of others.now)) }
{
    let number = put_sized(bump, bits, n)?;
    let same = put_expression(bump, &Expression::Test(Comparison::Same, e, number))?;
    put_pick(bump, same, x, others)
}

/// The pointer of an origin, or of one of those behind it, by their place.
fn origin_or<'a>(
    alloc: Global,
    bump: &'a Bump,
    place: u64,
    tag: u64,
    by: &'a Expression<'a>,
    bits: u64,
    n: u64,
    e: &'a Expression<'a>,
    first: Origin,
    rest: &[Origin],
) -> Result<&'a Expression<'a>, AllocError>
    requires place { place ≤ 64 }
    requires tag { tag ≤ 64 }
    requires few { n + length rest.now < 2 ^ 64 }
    ensures { IfOk result (λ r. expr_of r.now ≡ picked (expr_of by.now) bits n
        (sources_exprs place tag (expr_of e.now) (origin_view first ∷ map origin_view rest.now))) }
{
    let x = source_expression(alloc, bump, place, tag, e, first)?;
    match rest {
        [] => Ok(x),
        [next, more @ ..] => {
            let others = origin_or(alloc, bump, place, tag, by, bits, n + 1, e, *next, more)?;
            put_choice(bump, by, bits, n, x, others)
        }
    }
}

/// One of these origins' pointers, by their place.
fn picked_origins<'a>(
    alloc: Global,
    bump: &'a Bump,
    place: u64,
    tag: u64,
    by: &'a Expression<'a>,
    bits: u64,
    e: &'a Expression<'a>,
    kinds: &[Origin],
) -> Result<&'a Expression<'a>, AllocError>
    requires place { place ≤ 64 }
    requires tag { tag ≤ 64 }
    ensures { IfOk result (λ r. expr_of r.now
        ≡ picked (expr_of by.now) bits 0 (sources_exprs place tag (expr_of e.now) (map origin_view kinds.now))) }
{
    match kinds {
        [] => put_expression(bump, &Expression::Number(0)),
        [first, rest @ ..] => origin_or(alloc, bump, place, tag, by, bits, 0, e, *first, rest),
    }
}

/// The pointer at a slot.
fn slot_expression<'a>(
    alloc: Global,
    bump: &'a Bump,
    place: u64,
    tag: u64,
    slot: Slot,
    rows: &[Row],
) -> Result<&'a Expression<'a>, AllocError>
    requires place { place ≤ 64 }
    requires tag { tag ≤ 64 }
    ensures { IfOk result (λ r. expr_of r.now ≡ slot_expr place tag (map row_view rows.now) (slot_view slot)) }
{
    let by = by_field(alloc, bump, slot, rows)?;
    let from = put_name(bump, by.title)?;
    let title = slot_tagged(alloc, bump, slot)?;
    let e = put_name(bump, title)?;
    let kinds = origins_at(alloc, bump, slot, rows)?;
    picked_origins(alloc, bump, place, tag, from, by.bits, e, kinds)
}

/// Appends the wire of a slot.
fn add_slot_wire<'a>(
    alloc: Global,
    bump: &'a Bump,
    items: &mut Vec<Item<'a>>,
    place: u64,
    tag: u64,
    slot: Slot,
    rows: &[Row],
) -> Result<(), AllocError>
    requires place { place ≤ 64 }
    requires tag { tag ≤ 64 }
    ensures { OnOk result (map item_of items.new.items
        ≡ map item_of items.old.items ++ slot_wires place tag (map row_view rows.now) (slot_view slot ∷ [])) }
{
    let title = slot_title(alloc, bump, slot)?;
    let e = slot_expression(alloc, bump, place, tag, slot, rows)?;
    add_item(items, &Item::Wire(vector_wide(place + tag), title, *e))
}

/// Appends the wires of slots.
pub(crate) fn add_slot_wires<'a>(
    alloc: Global,
    bump: &'a Bump,
    items: &mut Vec<Item<'a>>,
    place: u64,
    tag: u64,
    slots: &[Slot],
    rows: &[Row],
) -> Result<(), AllocError>
    requires place { place ≤ 64 }
    requires tag { tag ≤ 64 }
    ensures { OnOk result (map item_of items.new.items
        ≡ map item_of items.old.items ++ slot_wires place tag (map row_view rows.now) (map slot_view slots.now)) }
{
    match slots {
        [] => Ok(()),
        [first, rest @ ..] => {
            add_slot_wire(alloc, bump, items, place, tag, *first, rows)?;
            add_slot_wires(alloc, bump, items, place, tag, rest, rows)
        }
    }
}

/// A number of fewer bits as an operand.
fn put_longer<'a>(
    bump: &'a Bump,
    bits: u64,
    e: &'a Expression<'a>,
) -> Result<&'a Expression<'a>, AllocError>
    ensures { IfOk result (λ r. expr_of r.now ≡ cat (sized bits 0) (expr_of e.now)) }
{
    let zeros = put_sized(bump, bits, 0)?;
    put_cat(bump, zeros, e)
}

/// A port's number as an operand.
fn put_port<'a>(alloc: Global, bump: &'a Bump, i: u64) -> Result<&'a Expression<'a>, AllocError>
    ensures { IfOk result (λ r. expr_of r.now ≡ cat (sized 1 0) (name (held_name i))) }
{
    let held = put_grouped(alloc, bump, Group::Held, i)?;
    put_longer(bump, 1, held)
}

/// What an operand is.
fn operand_expression<'a>(
    alloc: Global,
    bump: &'a Bump,
    bits: u64,
    e: &'a Expression<'a>,
    operand: Operand,
) -> Result<&'a Expression<'a>, AllocError>
    ensures { IfOk result (λ r. expr_of r.now ≡ operand_expr bits (expr_of e.now) (operand_view operand)) }
{
    match operand {
        Operand::Value => put_name(bump, b"result"),
        Operand::Kept => put_name(bump, b"kept"),
        Operand::Literal(_) => put_longer(bump, 65u64.saturating_sub(bits), e),
        Operand::Port(i) => put_port(alloc, bump, u64::from(i)),
    }
}

/// An operand, or one of those behind it, by their place.
fn operand_or<'a>(
    alloc: Global,
    bump: &'a Bump,
    by: &'a Expression<'a>,
    bits: u64,
    n: u64,
    wide: u64,
    e: &'a Expression<'a>,
    first: Operand,
    rest: &[Operand],
) -> Result<&'a Expression<'a>, AllocError>
    requires few { n + length rest.now < 2 ^ 64 }
    ensures { IfOk result (λ r. expr_of r.now ≡ picked (expr_of by.now) bits n
        (operands_exprs wide (expr_of e.now) (operand_view first ∷ map operand_view rest.now))) }
{
    let x = operand_expression(alloc, bump, wide, e, first)?;
    match rest {
        [] => Ok(x),
        [next, more @ ..] => {
            let others = operand_or(alloc, bump, by, bits, n + 1, wide, e, *next, more)?;
            put_choice(bump, by, bits, n, x, others)
        }
    }
}

/// One of these operands, by their place.
fn picked_operands<'a>(
    alloc: Global,
    bump: &'a Bump,
    by: &'a Expression<'a>,
    bits: u64,
    wide: u64,
    e: &'a Expression<'a>,
    kinds: &[Operand],
) -> Result<&'a Expression<'a>, AllocError>
    ensures { IfOk result (λ r. expr_of r.now
        ≡ picked (expr_of by.now) bits 0 (operands_exprs wide (expr_of e.now) (map operand_view kinds.now))) }
{
    match kinds {
        [] => put_expression(bump, &Expression::Number(0)),
        [first, rest @ ..] => operand_or(alloc, bump, by, bits, 0, wide, e, *first, rest),
    }
}

/// What an operand of the unit is.
pub(crate) fn input_expression<'a>(
    alloc: Global,
    bump: &'a Bump,
    side: Side,
    rows: &[Row],
) -> Result<&'a Expression<'a>, AllocError>
    ensures { IfOk result (λ r. expr_of r.now ≡ input_expr (map row_view rows.now) (input_view side)) }
{
    let by = operand_field(alloc, bump, side, rows)?;
    let from = put_name(bump, by.title)?;
    let number = literal_field(alloc, bump, side, rows)?;
    let e = put_name(bump, number.title)?;
    let kinds = operands_at(alloc, bump, side, rows)?;
    picked_operands(alloc, bump, from, by.bits, number.bits, e, kinds)
}
