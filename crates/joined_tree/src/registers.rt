//! Ports and registers, and wires of which there are as many as the table says.

ghost use Rattle.std.specs.Prelude.{◌≡◌, ◌≤◌, ◌<◌, ◌+◌, ◌*◌, ◌-◌, ◌++◌, ◌^◌, [], ◌∷◌, max, OnOk, IfOk, map};
ghost use Rattle.verilog_tree.specs.Names.{text_of};
ghost use Rattle.verilog_tree.specs.Tree.{count, part, wire};
ghost use Rattle.verilog_tree.specs.Views.{expr_of, item_of};
ghost use Rattle.joined_module.specs.Fields.{vector_wide};
ghost use Rattle.joined_module.specs.Module.{field_registers, found_registers, pointer_registers, pointer_parts, pointers_above};
ghost use Rattle.joined_module.specs.Module.{pointers_vector};
ghost use Rattle.joined_module.specs.Module.{store_registers};
ghost use Rattle.joined_module.specs.Ports.{arg_inputs, held_regs};
ghost use Rattle.joined_fields.specs.Views.{field_view, group_name, widths_view, Narrow};
ghost use Rattle.joined_tree.specs.Parts.{cell_registers, fork_registers, fork_top_wire, base_wires, fork_wires, less_one};

use crate::pointers::put_grouped;
use bumpalo::Bump;
use joined_fields::{Field, Group, Widths, cell_width, fork_width, grouped, joined, vector_wide};
use joined_fixed::{
    add_cells_said, add_forks_said, add_item, add_store_rest, base_expression, keeps_at_expression,
    next_top_expression, put_cat, put_expression, put_name, put_sized, reads_fork_expression,
    saved_top_expression,
};
use std::alloc::{AllocError, Global};
use verilog_tree::{Expression, Extent, Item, Operation, Range};

/// Appends the ports of so many arguments, from one on.
fn add_args<'a>(
    alloc: Global,
    bump: &'a Bump,
    items: &mut Vec<Item<'a>>,
    i: u64,
    n: u64,
) -> Result<(), AllocError>
    requires few { i + n < 2 ^ 64 }
    ensures { OnOk result (map item_of items.new.items ≡ map item_of items.old.items ++ arg_inputs i n) }
{
    if n == 0 {
        Ok(())
    } else {
        let title = grouped(alloc, bump, Group::Arg, i)?;
        add_item(items, &Item::Input(Range::UpTo(Extent::Count(63)), title))?;
        add_args(alloc, bump, items, i + 1, n - 1)
    }
}

/// Appends the ports of so many arguments.
pub(crate) fn add_inputs<'a>(
    alloc: Global,
    bump: &'a Bump,
    items: &mut Vec<Item<'a>>,
    n: u64,
) -> Result<(), AllocError>
    ensures { OnOk result (map item_of items.new.items ≡ map item_of items.old.items ++ arg_inputs 0 n) }
{
    add_args(alloc, bump, items, 0, n)
}

/// Appends the registers that hold so many, from one on.
fn add_holds<'a>(
    alloc: Global,
    bump: &'a Bump,
    items: &mut Vec<Item<'a>>,
    i: u64,
    n: u64,
) -> Result<(), AllocError>
    requires few { i + n < 2 ^ 64 }
    ensures { OnOk result (map item_of items.new.items ≡ map item_of items.old.items ++ held_regs i n) }
{
    if n == 0 {
        Ok(())
    } else {
        let title = grouped(alloc, bump, Group::Held, i)?;
        add_item(items, &Item::Reg(Range::UpTo(Extent::Count(63)), title))?;
        add_holds(alloc, bump, items, i + 1, n - 1)
    }
}

/// Appends the registers that hold so many.
pub(crate) fn add_held<'a>(
    alloc: Global,
    bump: &'a Bump,
    items: &mut Vec<Item<'a>>,
    n: u64,
) -> Result<(), AllocError>
    ensures { OnOk result (map item_of items.new.items ≡ map item_of items.old.items ++ held_regs 0 n) }
{
    add_holds(alloc, bump, items, 0, n)
}

/// Appends a register for each field.
pub(crate) fn add_field_registers<'a>(
    items: &mut Vec<Item<'a>>,
    fields: &[Field<'a>],
) -> Result<(), AllocError>
    ensures { OnOk result (map item_of items.new.items ≡ map item_of items.old.items ++ field_registers (map field_view fields.now)) }
{
    match fields {
        [] => Ok(()),
        [first, rest @ ..] => {
            add_item(items, &Item::Reg(first.wide, first.title))?;
            add_field_registers(items, rest)
        }
    }
}

/// Appends what is found for each field.
pub(crate) fn add_found_registers<'a>(
    alloc: Global,
    bump: &'a Bump,
    items: &mut Vec<Item<'a>>,
    fields: &[Field<'a>],
) -> Result<(), AllocError>
    ensures { OnOk result (map item_of items.new.items ≡ map item_of items.old.items ++ found_registers (map field_view fields.now)) }
{
    match fields {
        [] => Ok(()),
        [first, rest @ ..] => {
            let title = joined(alloc, bump, b"found_", first.title)?;
            add_item(items, &Item::Reg(first.wide, title))?;
            add_found_registers(alloc, bump, items, rest)
        }
    }
}

/// Appends registers of so many bits with names of a group, from one on.
pub(crate) fn add_pointer_registers<'a>(
    alloc: Global,
    bump: &'a Bump,
    items: &mut Vec<Item<'a>>,
    bits: u64,
    group: Group,
    i: u64,
    n: u64,
) -> Result<(), AllocError>
    requires few { i + n < 2 ^ 64 }
    ensures { OnOk result (map item_of items.new.items
        ≡ map item_of items.old.items ++ pointer_registers bits (group_name group) i n) }
{
    if n == 0 {
        Ok(())
    } else {
        let title = grouped(alloc, bump, group, i)?;
        add_item(items, &Item::Reg(vector_wide(bits), title))?;
        add_pointer_registers(alloc, bump, items, bits, group, i + 1, n - 1)
    }
}

/// So many bits of a vector, from one on.
fn put_bits<'a>(
    bump: &'a Bump,
    vector: &'a [u8],
    low: u64,
    bits: u64,
) -> Result<&'a Expression<'a>, AllocError>
    requires few { low + bits < 2 ^ 64 }
    ensures { IfOk result (λ r. expr_of r.now ≡ part (text_of vector.now) (count (low + bits - 1)) (count low)) }
{
    let high = Extent::Count((low + bits).saturating_sub(1));
    put_expression(bump, &Expression::Part(vector, high, Extent::Count(low)))
}

/// Appends a pointer in a vector.
fn add_pointer_part<'a>(
    alloc: Global,
    bump: &'a Bump,
    items: &mut Vec<Item<'a>>,
    bits: u64,
    vector: &'a [u8],
    group: Group,
    low: u64,
    i: u64,
) -> Result<(), AllocError>
    requires few { low + bits < 2 ^ 64 }
    ensures { OnOk result (map item_of items.new.items ≡ map item_of items.old.items
        ++ pointer_parts bits (text_of vector.now) (group_name group) low i 1) }
{
    let title = grouped(alloc, bump, group, i)?;
    let e = put_bits(bump, vector, low, bits)?;
    add_item(items, &Item::Wire(vector_wide(bits), title, *e))
}

/// Appends so many pointers in a vector.
pub(crate) fn add_pointer_parts<'a>(
    alloc: Global,
    bump: &'a Bump,
    items: &mut Vec<Item<'a>>,
    bits: u64,
    vector: &'a [u8],
    group: Group,
    low: u64,
    i: u64,
    n: u64,
) -> Result<(), AllocError>
    requires bits { bits ≤ 128 }
    requires few { i + n < 2 ^ 31 }
    requires low { low ≤ 64 + 128 * i }
    ensures { OnOk result (map item_of items.new.items ≡ map item_of items.old.items
        ++ pointer_parts bits (text_of vector.now) (group_name group) low i n) }
{
    if n == 0 {
        Ok(())
    } else {
        add_pointer_part(alloc, bump, items, bits, vector, group, low, i)?;
        add_pointer_parts(
            alloc,
            bump,
            items,
            bits,
            vector,
            group,
            low + bits,
            i + 1,
            n - 1,
        )
    }
}

/// A vector of so many pointers, from one on, above another.
#[tactic(auto, using(crate::proofs::Whole::above_more))]
pub(crate) fn pointers_above<'a>(
    alloc: Global,
    bump: &'a Bump,
    group: Group,
    i: u64,
    n: u64,
    e: &'a Expression<'a>,
) -> Result<&'a Expression<'a>, AllocError>
    requires few { i + n < 2 ^ 64 }
    ensures { IfOk result (λ r. expr_of r.now ≡ pointers_above (group_name group) i n (expr_of e.now)) }
{
    if n == 0 {
        put_expression(bump, e)
    } else {
        let x = put_grouped(alloc, bump, group, i)?;
        let both = put_cat(bump, x, e)?;
        pointers_above(alloc, bump, group, i + 1, n - 1, both)
    }
}

/// A vector of so many pointers.
#[tactic(auto, using(crate::proofs::Whole::vector_some))]
pub(crate) fn pointers_vector<'a>(
    alloc: Global,
    bump: &'a Bump,
    group: Group,
    n: u64,
) -> Result<&'a Expression<'a>, AllocError>
    ensures { IfOk result (λ r. expr_of r.now ≡ pointers_vector (group_name group) n) }
{
    if n == 0 {
        put_sized(bump, 1, 0)
    } else {
        let first = put_grouped(alloc, bump, group, 0)?;
        pointers_above(alloc, bump, group, 1, n - 1, first)
    }
}

/// A count of one at least.
fn some(n: u64) -> u64
    ensures { result ≡ max 1 n }
{
    if n == 0 { 1 } else { n }
}

/// Appends the registers of cells.
fn add_cell_registers<'a>(items: &mut Vec<Item<'a>>, w: &Widths) -> Result<(), AllocError>
    requires narrow { Narrow (widths_view w.now) }
    ensures { OnOk result (map item_of items.new.items ≡ map item_of items.old.items ++ cell_registers (widths_view w.now)) }
{
    let wide = vector_wide(cell_width(w));
    add_item(
        items,
        &Item::Memory(wide, b"cells", Extent::Count(some(w.cells))),
    )?;
    add_item(items, &Item::Reg(vector_wide(w.place), b"top"))?;
    add_item(items, &Item::Reg(wide, b"cell_has"))
}

/// Appends the registers of forks.
fn add_fork_registers<'a>(items: &mut Vec<Item<'a>>, w: &Widths) -> Result<(), AllocError>
    requires narrow { Narrow (widths_view w.now) }
    ensures { OnOk result (map item_of items.new.items ≡ map item_of items.old.items ++ fork_registers (widths_view w.now)) }
{
    let wide = vector_wide(fork_width(w));
    let value = Range::UpTo(Extent::Count(64));
    let many = Extent::Count(some(w.forks));
    add_item(items, &Item::Memory(wide, b"forks", many))?;
    add_item(items, &Item::Memory(value, b"answers", many))?;
    add_item(items, &Item::Reg(vector_wide(w.depth), b"depth"))?;
    add_item(items, &Item::Reg(wide, b"fork_has"))
}

/// Appends cells and forks, and what was read of them.
pub(crate) fn add_store<'a>(items: &mut Vec<Item<'a>>, w: &Widths) -> Result<(), AllocError>
    requires narrow { Narrow (widths_view w.now) }
    ensures { OnOk result (map item_of items.new.items ≡ map item_of items.old.items ++ store_registers (widths_view w.now)) }
{
    add_cells_said(items)?;
    add_cell_registers(items, w)?;
    add_forks_said(items)?;
    add_fork_registers(items, w)?;
    add_store_rest(items)
}

/// Appends a wire of so many bits.
pub(crate) fn add_wire<'a>(
    items: &mut Vec<Item<'a>>,
    bits: u64,
    title: &'a [u8],
    e: &Expression<'a>,
) -> Result<(), AllocError>
    ensures { OnOk result (map item_of items.new.items
        ≡ map item_of items.old.items ++ (wire (vector_wide bits) (text_of title.now) (expr_of e.now) ∷ [])) }
{
    add_item(items, &Item::Wire(vector_wide(bits), title, *e))
}

/// Appends the cells in use when the innermost fork was opened.
pub(crate) fn add_fork_top<'a>(
    bump: &'a Bump,
    items: &mut Vec<Item<'a>>,
    w: &Widths,
) -> Result<(), AllocError>
    requires narrow { Narrow (widths_view w.now) }
    ensures { OnOk result (map item_of items.new.items ≡ map item_of items.old.items ++ fork_top_wire (widths_view w.now)) }
{
    let e = put_bits(bump, b"fork_has", 0, w.place)?;
    add_wire(items, w.place, b"fork_top", e)
}

/// Appends the place of a new cell.
pub(crate) fn add_base<'a>(items: &mut Vec<Item<'a>>, w: &Widths) -> Result<(), AllocError>
    ensures { OnOk result (map item_of items.new.items ≡ map item_of items.old.items ++ base_wires (widths_view w.now)) }
{
    add_wire(items, w.place, b"base", base_expression())?;
    add_wire(items, w.place, b"next_top", next_top_expression())
}

/// One less.
fn put_less<'a>(bump: &'a Bump, bits: u64, x: &'a [u8]) -> Result<&'a Expression<'a>, AllocError>
    ensures { IfOk result (λ r. expr_of r.now ≡ less_one bits (text_of x.now)) }
{
    let e = put_name(bump, x)?;
    let one = put_sized(bump, bits, 1)?;
    put_expression(bump, &Expression::Two(Operation::Minus, e, one))
}

/// Appends the places of forks.
pub(crate) fn add_fork_wires<'a>(
    bump: &'a Bump,
    items: &mut Vec<Item<'a>>,
    w: &Widths,
) -> Result<(), AllocError>
    ensures { OnOk result (map item_of items.new.items ≡ map item_of items.old.items ++ fork_wires (widths_view w.now)) }
{
    let innermost = put_less(bump, w.depth, b"depth")?;
    let around = put_less(bump, w.depth, b"innermost")?;
    add_wire(items, w.depth, b"innermost", innermost)?;
    add_wire(items, w.depth, b"around", around)?;
    add_wire(items, w.depth, b"reads_fork", reads_fork_expression())?;
    add_wire(items, w.depth, b"keeps_at", keeps_at_expression())?;
    add_wire(items, w.place, b"saved_top", saved_top_expression())
}
