//! The fields of a row.

ghost use Rattle.std.specs.Prelude.{◌≡◌, ◌++◌, [], ◌∷◌, OnOk, IfOk, map};
ghost use Rattle.verilog_tree.specs.Names.{text_of};
ghost use Rattle.joined_module.specs.Names.{by_name, number_name};
ghost use Rattle.joined_module.specs.Fields.{flag_field, number_field, none_field, to_field, count_field, by_field, tag_field};
ghost use Rattle.joined_module.specs.Fields.{operand_field, literal_field};
ghost use Rattle.joined_module.specs.Fields.{slot_fields, all_slots, tag_bits, row_fields};
ghost use Rattle.joined_data.specs.Views.{row_view};
ghost use Rattle.joined_data.specs.Figures.{slot_view, input_view, flag_at, figure_at};
ghost use Rattle.joined_fields.specs.Views.{field_view};
ghost use Rattle.joined_fields.specs.Parts.{first_fields, walk_flags, fork_flags, number_flags, both_fields};

use crate::names::joined;
use crate::slots::{slot_by, slot_tagged};
use crate::widths::vector_wide;
use bumpalo::Bump;
use joined_data::{
    Figure, Flag, Row, Side, Slot, bits_upto, first_number, first_tag, most, operands_at,
    origins_at,
};
use joined_fixed::put_all;
use std::alloc::{AllocError, Global};
use verilog_tree::Range;

/// A field of a row.
#[derive(Clone, Copy)]
pub struct Field<'a> {
    /// Its name.
    pub title: &'a [u8],
    /// Its bits.
    pub bits: u64,
    /// How it is declared.
    pub wide: Range<'a>,
    /// Its number where there is no row.
    pub idle: u64,
    /// Its number in a row.
    pub says: Figure<'a>,
}

/// Appends a field.
fn add_field<'a>(fields: &mut Vec<Field<'a>>, field: &Field<'a>) -> Result<(), AllocError>
    ensures { OnOk result (map field_view fields.new.items ≡ map field_view fields.old.items ++ (field_view field.now ∷ [])) }
{
    fields.push(*field)?;
    Ok(())
}

/// Appends a field of one bit.
fn add_flag<'a>(fields: &mut Vec<Field<'a>>, title: &'a [u8], which: Flag) -> Result<(), AllocError>
    ensures { OnOk result (map field_view fields.new.items
        ≡ map field_view fields.old.items ++ (flag_field (text_of title.now) (flag_at which) ∷ [])) }
{
    let field = Field {
        title,
        bits: 1,
        wide: Range::One,
        idle: 0,
        says: Figure::Told(which),
    };
    add_field(fields, &field)
}

/// The field of a number.
fn number_field<'a>(title: &'a [u8], figure: &Figure<'a>, rows: &[Row]) -> Field<'a>
    ensures { field_view result ≡ number_field (map row_view rows.now) (text_of title.now) (figure_at figure.now) }
{
    let bits = bits_upto(most(figure, rows));
    Field {
        title,
        bits,
        wide: vector_wide(bits),
        idle: 0,
        says: *figure,
    }
}

/// No row was found.
fn none_field<'a>() -> Field<'a>
    ensures { field_view result ≡ none_field }
{
    Field {
        title: b"none",
        bits: 1,
        wide: Range::One,
        idle: 1,
        says: Figure::Zero,
    }
}

/// Where the row ends.
fn to_field<'a>(rows: &[Row]) -> Field<'a>
    ensures { field_view result ≡ to_field (map row_view rows.now) }
{
    let bits = bits_upto(most(&Figure::Reach, rows));
    Field {
        title: b"to",
        bits,
        wide: vector_wide(bits),
        idle: 0,
        says: Figure::To,
    }
}

/// The moves, as wide at least as the sum of which they are a part.
fn count_field<'a>(rows: &[Row]) -> Field<'a>
    ensures { field_view result ≡ count_field (map row_view rows.now) }
{
    let bits = bits_upto(most(&Figure::Moves, rows)).max(9);
    Field {
        title: b"counts",
        bits,
        wide: vector_wide(bits),
        idle: 0,
        says: Figure::Moves,
    }
}

/// Appends the first fields.
fn add_first<'a>(fields: &mut Vec<Field<'a>>, rows: &[Row]) -> Result<(), AllocError>
    ensures { OnOk result (map field_view fields.new.items ≡ map field_view fields.old.items ++ first_fields (map row_view rows.now)) }
{
    add_field(fields, &none_field())?;
    add_field(fields, &to_field(rows))?;
    add_field(fields, &count_field(rows))
}

/// Appends the flags of the walk.
fn add_walk_flags<'a>(fields: &mut Vec<Field<'a>>) -> Result<(), AllocError>
    ensures { OnOk result (map field_view fields.new.items ≡ map field_view fields.old.items ++ walk_flags) }
{
    add_flag(fields, b"waits", Flag::Waits)?;
    add_flag(fields, b"later", Flag::Later)?;
    add_flag(fields, b"tests", Flag::Tests)?;
    add_flag(fields, b"needs", Flag::Needs)?;
    add_flag(fields, b"ends", Flag::Ends)?;
    add_flag(fields, b"makes", Flag::Makes)
}

/// Appends those of forks.
fn add_fork_flags<'a>(fields: &mut Vec<Field<'a>>) -> Result<(), AllocError>
    ensures { OnOk result (map field_view fields.new.items ≡ map field_view fields.old.items ++ fork_flags) }
{
    add_flag(fields, b"opens", Flag::Opens)?;
    add_flag(fields, b"above", Flag::Above)?;
    add_flag(fields, b"keeps", Flag::Keeps)?;
    add_flag(fields, b"closes", Flag::Closes)?;
    add_flag(fields, b"touches", Flag::Touches)
}

/// Appends those of numbers.
fn add_number_flags<'a>(fields: &mut Vec<Field<'a>>) -> Result<(), AllocError>
    ensures { OnOk result (map field_view fields.new.items ≡ map field_view fields.old.items ++ number_flags) }
{
    add_flag(fields, b"takes", Flag::Takes)?;
    add_flag(fields, b"computes", Flag::Computes)?;
    add_flag(fields, b"subtracts", Flag::Subtracts)?;
    add_flag(fields, b"multiplies", Flag::Multiplies)
}

/// The name of an operand.
pub fn side_title(side: Side) -> &'static [u8]
    ensures { text_of result.now ≡ (input_view side).title }
{
    match side {
        Side::First => b"first",
        Side::Second => b"second",
    }
}

/// Which of an operand's kinds a row has.
///
/// # Errors
///
/// `AllocError` where there is no memory for it.
pub fn operand_field<'a>(
    alloc: Global,
    bump: &'a Bump,
    side: Side,
    rows: &[Row],
) -> Result<Field<'a>, AllocError>
    ensures { IfOk result (λ f. field_view f ≡ operand_field (map row_view rows.now) (input_view side)) }
{
    let title = joined(alloc, bump, b"by_", side_title(side))?;
    let kinds = operands_at(alloc, bump, side, rows)?;
    Ok(number_field(title, &Figure::InputPlace(side, kinds), rows))
}

/// The number of an operand.
///
/// # Errors
///
/// `AllocError` where there is no memory for it.
pub fn literal_field<'a>(
    alloc: Global,
    bump: &'a Bump,
    side: Side,
    rows: &[Row],
) -> Result<Field<'a>, AllocError>
    ensures { IfOk result (λ f. field_view f ≡ literal_field (map row_view rows.now) (input_view side)) }
{
    let title = joined(alloc, bump, b"number_", side_title(side))?;
    let bits = bits_upto(most(&Figure::InputNumber(side, 0), rows));
    let first = first_number(side, rows);
    Ok(Field {
        title,
        bits,
        wide: vector_wide(bits),
        idle: first,
        says: Figure::InputNumber(side, first),
    })
}

/// Appends both fields of an operand.
fn add_input<'a>(
    alloc: Global,
    bump: &'a Bump,
    fields: &mut Vec<Field<'a>>,
    side: Side,
    rows: &[Row],
) -> Result<(), AllocError>
    ensures { OnOk result (map field_view fields.new.items
        ≡ map field_view fields.old.items ++ both_fields (map row_view rows.now) (input_view side)) }
{
    add_field(fields, &operand_field(alloc, bump, side, rows)?)?;
    add_field(fields, &literal_field(alloc, bump, side, rows)?)
}

/// Which of a slot's kinds a row has.
///
/// # Errors
///
/// `AllocError` where there is no memory for it.
pub fn by_field<'a>(
    alloc: Global,
    bump: &'a Bump,
    slot: Slot,
    rows: &[Row],
) -> Result<Field<'a>, AllocError>
    ensures { IfOk result (λ f. field_view f ≡ by_field (map row_view rows.now) (slot_view slot)) }
{
    let title = slot_by(alloc, bump, slot)?;
    let kinds = origins_at(alloc, bump, slot, rows)?;
    Ok(number_field(title, &Figure::SlotPlace(slot, kinds), rows))
}

/// The tag at a slot.
fn tag_field<'a>(
    alloc: Global,
    bump: &'a Bump,
    bits: u64,
    slot: Slot,
    rows: &[Row],
) -> Result<Field<'a>, AllocError>
    ensures { IfOk result (λ f. field_view f ≡ tag_field bits (map row_view rows.now) (slot_view slot)) }
{
    let title = slot_tagged(alloc, bump, slot)?;
    let first = first_tag(slot, rows);
    Ok(Field {
        title,
        bits,
        wide: vector_wide(bits),
        idle: first,
        says: Figure::SlotTag(slot, first),
    })
}

/// Appends the fields of these slots.
fn add_slot_fields<'a>(
    alloc: Global,
    bump: &'a Bump,
    fields: &mut Vec<Field<'a>>,
    bits: u64,
    slots: &[Slot],
    rows: &[Row],
) -> Result<(), AllocError>
    ensures { OnOk result (map field_view fields.new.items
        ≡ map field_view fields.old.items ++ slot_fields bits (map row_view rows.now) (map slot_view slots.now)) }
{
    match slots {
        [] => Ok(()),
        [first, rest @ ..] => {
            add_field(fields, &by_field(alloc, bump, *first, rows)?)?;
            add_field(fields, &tag_field(alloc, bump, bits, *first, rows)?)?;
            add_slot_fields(alloc, bump, fields, bits, rest, rows)
        }
    }
}

/// All fields.
///
/// # Errors
///
/// `AllocError` where there is no memory for it.
pub fn row_fields<'a>(
    alloc: Global,
    bump: &'a Bump,
    bits: u64,
    slots: &[Slot],
    rows: &[Row],
) -> Result<&'a [Field<'a>], AllocError>
    requires bits { bits ≡ tag_bits (map row_view rows.now) }
    requires all { map slot_view slots.now ≡ all_slots (map row_view rows.now) }
    ensures { IfOk result (λ f. map field_view f.now ≡ row_fields (map row_view rows.now)) }
{
    let mut fields = Vec::new(alloc);
    add_first(&mut fields, rows)?;
    add_walk_flags(&mut fields)?;
    add_fork_flags(&mut fields)?;
    add_number_flags(&mut fields)?;
    add_input(alloc, bump, &mut fields, Side::First, rows)?;
    add_input(alloc, bump, &mut fields, Side::Second, rows)?;
    add_slot_fields(alloc, bump, &mut fields, bits, slots, rows)?;
    let kept = put_all(bump, &fields)?;
    Ok(kept)
}
