//! The whole module.

ghost use Rattle.std.specs.Prelude.{◌≡◌, ◌<◌, ◌++◌, ◌^◌, true, IfOk, OnOk, map};
ghost use Rattle.verilog_tree.specs.Views.{expr_of, item_of};
ghost use Rattle.verilog_tree.specs.Names.{text_of};
ghost use Rattle.joined_module.specs.Fields.{all_slots, row_fields, input_expr, first_input, second_input, sig_count, box_count};
ghost use Rattle.joined_module.specs.Fields.{fork_count, word_count};
ghost use Rattle.joined_module.specs.Fits.{module_fits};
ghost use Rattle.joined_module.specs.Module.{widths, has_product, found_rows, place_wires, find_said, found_registers, find_items};
ghost use Rattle.joined_module.specs.Module.{rest_wires, clock_items};
ghost use Rattle.joined_module.specs.Module.{head_items, found_items, last_items, module_items, joined_module};
ghost use Rattle.joined_module.specs.Unit.{operand_wires_of};
ghost use Rattle.joined_data.specs.Views.{row_view};
ghost use Rattle.joined_data.specs.Figures.{slot_view};
ghost use Rattle.joined_fields.specs.Views.{field_view, widths_view, room_of, table_of, Narrow};
ghost use Rattle.joined_tree.specs.Parts.{row_items, store_items, read_items, goes_expr, begun_expr};

use crate::clock::clock_statement;
use crate::pointers::{add_slot_wires, input_expression};
use crate::registers::{
    add_base, add_field_registers, add_fork_top, add_fork_wires, add_found_registers, add_held,
    add_inputs, add_pointer_parts, add_pointer_registers, add_store, add_wire,
};
use bumpalo::Bump;
use joined_data::{Row, Side, Slot, found_rows, has_product};
use joined_fields::{Field, Group, Widths, all_slots, find_statement, row_fields, table_widths};
use joined_fixed::{
    add_clock_said, add_count_wires, add_find_said, add_item, add_less, add_lists_said,
    add_numbers_said, add_place_said, add_ports, add_ports_said, add_read_said, add_rest_flags,
    add_unit, add_unit_wires, put_all, put_cat, put_name, put_pick, put_sized, resets,
};
use std::alloc::{AllocError, Global};
use verilog_tree::{Expression, Item};

/// An operand, or what a product adds.
fn put_begun<'a>(
    bump: &'a Bump,
    product: bool,
    x: &'a [u8],
    e: &'a Expression<'a>,
) -> Result<&'a Expression<'a>, AllocError>
    ensures { IfOk result (λ r. expr_of r.now ≡ begun_expr product (text_of x.now) (expr_of e.now)) }
{
    if product {
        let zero = put_sized(bump, 1, 0)?;
        let name = put_name(bump, x)?;
        let longer = put_cat(bump, zero, name)?;
        let begun = put_name(bump, b"begun")?;
        put_pick(bump, begun, longer, e)
    } else {
        Ok(e)
    }
}

/// Appends both operands.
#[tactic(auto, using(crate::proofs::Whole::operands_are))]
fn add_operands<'a>(
    alloc: Global,
    bump: &'a Bump,
    items: &mut Vec<Item<'a>>,
    rows: &[Row],
    product: bool,
) -> Result<(), AllocError>
    ensures { OnOk result (map item_of items.new.items ≡ map item_of items.old.items ++ operand_wires_of product
        (input_expr (map row_view rows.now) first_input) (input_expr (map row_view rows.now) second_input)) }
{
    let first = input_expression(alloc, bump, Side::First, rows)?;
    let x = put_begun(bump, product, b"total", first)?;
    add_wire(items, 65, b"first", x)?;
    let second = input_expression(alloc, bump, Side::Second, rows)?;
    let y = put_begun(bump, product, b"factor", second)?;
    add_wire(items, 65, b"second", y)?;
    add_less(items, product)
}

/// Appends ports and the row's registers.
fn add_row_items<'a>(
    alloc: Global,
    bump: &'a Bump,
    items: &mut Vec<Item<'a>>,
    fields: &[Field<'a>],
    ports: u64,
) -> Result<(), AllocError>
    ensures { OnOk result (map item_of items.new.items ≡ map item_of items.old.items ++ row_items (map field_view fields.now) ports) }
{
    add_ports(items)?;
    add_inputs(alloc, bump, items, ports)?;
    add_ports_said(items)?;
    add_field_registers(items, fields)?;
    add_lists_said(items)
}

/// Appends lists, cells and forks, and the unit.
fn add_store_items<'a>(
    alloc: Global,
    bump: &'a Bump,
    items: &mut Vec<Item<'a>>,
    w: &Widths,
    ports: u64,
    product: bool,
) -> Result<(), AllocError>
    requires narrow { Narrow (widths_view w.now) }
    ensures { OnOk result (map item_of items.new.items ≡ map item_of items.old.items ++ store_items (widths_view w.now) ports product) }
{
    let bits = w.place + w.tag;
    add_pointer_registers(alloc, bump, items, bits, Group::Sig, 0, w.sigs)?;
    add_pointer_registers(alloc, bump, items, bits, Group::Boxed, 0, w.boxes)?;
    add_held(alloc, bump, items, ports)?;
    add_store(items, w)?;
    add_unit(items, product)
}

/// Appends what is declared in front of all that settles.
fn add_head<'a>(
    alloc: Global,
    bump: &'a Bump,
    items: &mut Vec<Item<'a>>,
    w: &Widths,
    fields: &[Field<'a>],
    ports: u64,
    product: bool,
) -> Result<(), AllocError>
    requires narrow { Narrow (widths_view w.now) }
    ensures { OnOk result (map item_of items.new.items
        ≡ map item_of items.old.items ++ head_items (widths_view w.now) (map field_view fields.now) ports product) }
{
    add_row_items(alloc, bump, items, fields, ports)?;
    add_store_items(alloc, bump, items, w, ports, product)
}

/// Appends the cells in use and the place of a new one.
fn add_places<'a>(bump: &'a Bump, items: &mut Vec<Item<'a>>, w: &Widths) -> Result<(), AllocError>
    requires narrow { Narrow (widths_view w.now) }
    ensures { OnOk result (map item_of items.new.items ≡ map item_of items.old.items ++ place_wires (widths_view w.now)) }
{
    add_fork_top(bump, items, w)?;
    add_place_said(items)?;
    add_base(items, w)
}

/// Appends what was read.
fn add_read_items<'a>(
    alloc: Global,
    bump: &'a Bump,
    items: &mut Vec<Item<'a>>,
    w: &Widths,
) -> Result<(), AllocError>
    requires narrow { Narrow (widths_view w.now) }
    ensures { OnOk result (map item_of items.new.items ≡ map item_of items.old.items ++ read_items (widths_view w.now)) }
{
    let bits = w.place + w.tag;
    add_read_said(items)?;
    add_pointer_parts(
        alloc,
        bump,
        items,
        bits,
        b"cell_has",
        Group::Word,
        0,
        0,
        w.words,
    )?;
    add_pointer_parts(
        alloc,
        bump,
        items,
        bits,
        b"fork_has",
        Group::ForkBox,
        w.place,
        0,
        w.saved,
    )?;
    add_places(bump, items, w)
}

/// The key that the token comes to.
fn put_goes<'a>(bump: &'a Bump, bits: u64, start: u64) -> Result<&'a Expression<'a>, AllocError>
    ensures { IfOk result (λ r. expr_of r.now ≡ goes_expr bits start) }
{
    let begins = put_sized(bump, bits, start)?;
    let goes_on = put_name(bump, b"to")?;
    put_pick(bump, resets(), begins, goes_on)
}

/// Appends the block that finds a row.
fn add_find_items<'a>(
    alloc: Global,
    bump: &'a Bump,
    items: &mut Vec<Item<'a>>,
    w: &Widths,
    start: u64,
    fields: &[Field<'a>],
    rows: &[Row<'a>],
) -> Result<(), AllocError>
    ensures { OnOk result (map item_of items.new.items ≡ map item_of items.old.items
        ++ find_items (widths_view w.now) start (map row_view rows.now) (map field_view fields.now)) }
{
    let goes = put_goes(bump, w.key, start)?;
    add_wire(items, w.key, b"goes", goes)?;
    let block = find_statement(alloc, bump, w, fields, rows)?;
    add_item(items, &Item::Settles(*block))
}

/// Appends the row that the token comes to.
fn add_found<'a>(
    alloc: Global,
    bump: &'a Bump,
    items: &mut Vec<Item<'a>>,
    w: &Widths,
    start: u64,
    fields: &[Field<'a>],
    rows: &[Row<'a>],
) -> Result<(), AllocError>
    ensures { OnOk result (map item_of items.new.items ≡ map item_of items.old.items ++ (find_said
        ++ (found_registers (map field_view fields.now)
        ++ find_items (widths_view w.now) start (map row_view rows.now) (map field_view fields.now)))) }
{
    add_find_said(items)?;
    add_found_registers(alloc, bump, items, fields)?;
    add_find_items(alloc, bump, items, w, start, fields, rows)
}

/// Appends what was read, the row's pointers, and the row that the token comes to.
fn add_middle<'a>(
    alloc: Global,
    bump: &'a Bump,
    items: &mut Vec<Item<'a>>,
    w: &Widths,
    start: u64,
    slots: &[Slot],
    fields: &[Field<'a>],
    rows: &[Row<'a>],
) -> Result<(), AllocError>
    requires narrow { Narrow (widths_view w.now) }
    requires all { map slot_view slots.now ≡ all_slots (map row_view rows.now) }
    ensures { OnOk result (map item_of items.new.items ≡ map item_of items.old.items
        ++ found_items (widths_view w.now) start (map row_view rows.now) (map field_view fields.now)) }
{
    add_read_items(alloc, bump, items, w)?;
    add_slot_wires(alloc, bump, items, w.place, w.tag, slots, rows)?;
    add_found(alloc, bump, items, w, start, fields, rows)
}

/// Appends whether the row rests, forks, and the count of moves.
fn add_rests<'a>(bump: &'a Bump, items: &mut Vec<Item<'a>>, w: &Widths) -> Result<(), AllocError>
    ensures { OnOk result (map item_of items.new.items ≡ map item_of items.old.items ++ rest_wires (widths_view w.now)) }
{
    add_rest_flags(items)?;
    add_fork_wires(bump, items, w)?;
    add_count_wires(items)
}

/// Appends the clock.
fn add_clock<'a>(
    alloc: Global,
    bump: &'a Bump,
    items: &mut Vec<Item<'a>>,
    w: &Widths,
    fields: &[Field<'a>],
    ports: u64,
    product: bool,
) -> Result<(), AllocError>
    requires narrow { Narrow (widths_view w.now) }
    ensures { OnOk result (map item_of items.new.items
        ≡ map item_of items.old.items ++ clock_items (widths_view w.now) (map field_view fields.now) ports product) }
{
    add_clock_said(items)?;
    let block = clock_statement(alloc, bump, w, fields, ports, product)?;
    add_item(items, &Item::Clocked(*block))
}

/// Appends numbers, whether the row rests, and the clock.
fn add_last<'a>(
    alloc: Global,
    bump: &'a Bump,
    items: &mut Vec<Item<'a>>,
    w: &Widths,
    fields: &[Field<'a>],
    rows: &[Row<'a>],
    ports: u64,
    product: bool,
) -> Result<(), AllocError>
    requires narrow { Narrow (widths_view w.now) }
    ensures { OnOk result (map item_of items.new.items ≡ map item_of items.old.items
        ++ last_items (widths_view w.now) (map row_view rows.now) (map field_view fields.now) ports product) }
{
    add_numbers_said(items)?;
    add_operands(alloc, bump, items, rows, product)?;
    add_unit_wires(items, product)?;
    add_rests(bump, items, w)?;
    add_clock(alloc, bump, items, w, fields, ports, product)
}

/// Appends the items of a module.
fn add_module<'a>(
    alloc: Global,
    bump: &'a Bump,
    items: &mut Vec<Item<'a>>,
    w: &Widths,
    start: u64,
    slots: &[Slot],
    fields: &[Field<'a>],
    rows: &[Row<'a>],
    ports: u64,
    product: bool,
) -> Result<(), AllocError>
    requires narrow { Narrow (widths_view w.now) }
    requires all { map slot_view slots.now ≡ all_slots (map row_view rows.now) }
    ensures { OnOk result (map item_of items.new.items ≡ map item_of items.old.items
        ++ module_items (widths_view w.now) start (map row_view rows.now) (map field_view fields.now) ports product) }
{
    add_head(alloc, bump, items, w, fields, ports, product)?;
    add_middle(alloc, bump, items, w, start, slots, fields, rows)?;
    add_last(alloc, bump, items, w, fields, rows, ports, product)
}

/// Puts items into the arena.
fn kept_items<'a>(bump: &'a Bump, items: &Vec<Item<'a>>) -> Result<&'a [Item<'a>], AllocError>
    ensures { IfOk result (λ r. map item_of r.now ≡ map item_of items.now.items) }
{
    let kept = put_all(bump, items)?;
    Ok(kept)
}

/// The items of the module of rows that are found, where their lists are short.
#[tactic(auto, using(joined_fields::proofs::Narrow::narrow, joined_fields::proofs::Narrow::tag_is))]
fn items_of_found<'a>(
    alloc: Global,
    bump: &'a Bump,
    rows: &[Row<'a>],
    start: u64,
    cells: u64,
    forks: u64,
    ports: u64,
) -> Result<&'a [Item<'a>], AllocError>
    requires sigs { sig_count (map row_view rows.now) < 2 ^ 31 }
    requires boxes { box_count (map row_view rows.now) < 2 ^ 31 }
    requires saved { fork_count (map row_view rows.now) < 2 ^ 31 }
    requires words { word_count (map row_view rows.now) < 2 ^ 31 }
    ensures { IfOk result (λ r. map item_of r.now
        ≡ module_items (widths (map row_view rows.now) (room_of cells forks)) start (map row_view rows.now)
        (row_fields (map row_view rows.now)) ports (has_product (map row_view rows.now))) }
{
    let slots = all_slots(alloc, bump, rows)?;
    let w = table_widths(slots, rows, cells, forks);
    let fields = row_fields(alloc, bump, w.tag, slots, rows)?;
    let product = has_product(rows);
    let mut items = Vec::new(alloc);
    add_module(
        alloc, bump, &mut items, &w, start, slots, fields, rows, ports, product,
    )?;
    kept_items(bump, &items)
}

/// The items of the module of a table that fits it, whose run begins at a key, with so many cells and forks and so many ports. They are in
/// `bump`.
///
/// # Errors
///
/// `AllocError` where there is no memory for them.
#[tactic(auto, using(crate::proofs::Whole::lists_short))]
pub fn joined_items<'a>(
    alloc: Global,
    bump: &'a Bump,
    rows: &[Row<'a>],
    start: u64,
    cells: u64,
    forks: u64,
    ports: u64,
) -> Result<&'a [Item<'a>], AllocError>
    requires fits { module_fits (table_of (map row_view rows.now) start) (room_of cells forks) ports ≡ true }
    ensures { IfOk result (λ r. map item_of r.now ≡ joined_module (table_of (map row_view rows.now) start) (room_of cells forks) ports) }
{
    let found = found_rows(alloc, bump, rows)?;
    items_of_found(alloc, bump, found, start, cells, forks, ports)
}
