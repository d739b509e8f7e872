//! The unit of numbers.

ghost use Rattle.std.specs.Prelude.{◌≡◌, ◌++◌, true, OnOk, map};
ghost use Rattle.joined_module.specs.Unit.{unit_said, unit_flags, unit_registers, product_parts, right_wires, late_wires, busy_wires};
ghost use Rattle.joined_module.specs.Unit.{unit_wires};
ghost use Rattle.late_numbers.specs.Unit.{quarter_registers, meet_wires};
ghost use Rattle.late_numbers.specs.ProductUnit.{met_wires};
ghost use Rattle.verilog_tree.specs.Views.{item_of};

use crate::arena::{Fixed, add_fixed};
use std::alloc::AllocError;
use verilog_tree::{Expression, Item};

/// What a quarter of both operands comes to, with this below the right one.
macro_rules! meet {
    ($x:literal, $high:literal, $low:literal, $below:expr) => {
        wire!(
            17,
            $x,
            plus!(
                cat!(sized!(1, 0), part!(b"first", $high, $low), sized!(1, 1)),
                cat!(sized!(1, 0), part!(b"addend", $high, $low), $below)
            )
        )
    };
}

static UNIT_SAID: Fixed<'static> = Fixed {
    list: &[
        Item::Gap,
        Item::Note(
            b"A number: its quarters, the upper ones without and with a carry from below; whether they met at the last edge; whether",
        ),
        Item::Note(b"it is a difference; and whether an operand was an overflow."),
    ],
};

/// Appends what is said of it.
fn add_unit_said<'a>(items: &mut Vec<Item<'a>>) -> Result<(), AllocError>
    ensures { OnOk result (map item_of items.new.items ≡ map item_of items.old.items ++ unit_said) }
{
    add_fixed(items, &UNIT_SAID)
}

static QUARTERS: Fixed<'static> = Fixed {
    list: &[
        reg!(16, b"part0"),
        reg!(16, b"part1"),
        reg!(16, b"next1"),
        reg!(16, b"part2"),
        reg!(16, b"next2"),
        reg!(16, b"part3"),
        reg!(16, b"next3"),
    ],
};

/// Appends the registers of its quarters.
fn add_quarters<'a>(items: &mut Vec<Item<'a>>) -> Result<(), AllocError>
    ensures { OnOk result (map item_of items.new.items ≡ map item_of items.old.items ++ quarter_registers) }
{
    add_fixed(items, &QUARTERS)
}

static FLAGS: Fixed<'static> = Fixed {
    list: &[reg!(b"meets"), reg!(b"was_less"), reg!(b"spoilt")],
};

/// Appends its flags.
fn add_flags<'a>(items: &mut Vec<Item<'a>>) -> Result<(), AllocError>
    ensures { OnOk result (map item_of items.new.items ≡ map item_of items.old.items ++ unit_flags) }
{
    add_fixed(items, &FLAGS)
}

static PRODUCT: Fixed<'static> = Fixed {
    list: &[
        Item::Gap,
        Item::Note(
            b"A product: the bits that are left of its right operand, the left operand and the sum so far, whether a bit of these was",
        ),
        Item::Note(b"lost, whether it goes on, and whether its sum is taken next."),
        reg!(63, b"rest"),
        reg!(63, b"factor"),
        reg!(63, b"total"),
        reg!(b"lost"),
        reg!(b"beyond"),
        reg!(b"begun"),
        reg!(b"adds"),
    ],
};

/// Appends the registers of a product.
fn add_product<'a>(items: &mut Vec<Item<'a>>) -> Result<(), AllocError>
    ensures { OnOk result (map item_of items.new.items ≡ map item_of items.old.items ++ product_parts true) }
{
    add_fixed(items, &PRODUCT)
}

/// Appends them, if there is one.
fn add_product_if<'a>(items: &mut Vec<Item<'a>>, product: bool) -> Result<(), AllocError>
    ensures { OnOk result (map item_of items.new.items ≡ map item_of items.old.items ++ product_parts product) }
{
    if product { add_product(items) } else { Ok(()) }
}

/// Appends the registers of the unit.
///
/// # Errors
///
/// `AllocError` where there is no memory for them.
pub fn add_unit<'a>(items: &mut Vec<Item<'a>>, product: bool) -> Result<(), AllocError>
    ensures { OnOk result (map item_of items.new.items ≡ map item_of items.old.items ++ unit_registers product) }
{
    add_unit_said(items)?;
    add_quarters(items)?;
    add_flags(items)?;
    add_product_if(items, product)
}

static MEETS: Fixed<'static> = Fixed {
    list: &[
        wire!(
            63,
            b"addend",
            pick!(
                name!(b"less"),
                Expression::Inverse(&part!(b"second", 63, 0)),
                part!(b"second", 63, 0)
            )
        ),
        meet!(b"meet0", 15, 0, name!(b"less")),
        meet!(b"meet1", 31, 16, sized!(1, 0)),
        meet!(b"more1", 31, 16, sized!(1, 1)),
        meet!(b"meet2", 47, 32, sized!(1, 0)),
        meet!(b"more2", 47, 32, sized!(1, 1)),
        meet!(b"meet3", 63, 48, sized!(1, 0)),
        meet!(b"more3", 63, 48, sized!(1, 1)),
    ],
};

/// Appends what the quarters come to.
fn add_meets<'a>(items: &mut Vec<Item<'a>>) -> Result<(), AllocError>
    ensures { OnOk result (map item_of items.new.items ≡ map item_of items.old.items ++ meet_wires) }
{
    add_fixed(items, &MEETS)
}

static RIGHTS: Fixed<'static> = Fixed {
    list: &[
        wire!(
            16,
            b"right1",
            pick!(bit!(b"part0", 16), name!(b"next1"), name!(b"part1"))
        ),
        wire!(
            16,
            b"right2",
            pick!(bit!(b"right1", 16), name!(b"next2"), name!(b"part2"))
        ),
        wire!(
            16,
            b"right3",
            pick!(bit!(b"right2", 16), name!(b"next3"), name!(b"part3"))
        ),
        wire!(
            b"past",
            either!(
                name!(b"spoilt"),
                both!(not!(name!(b"was_less")), bit!(b"right3", 16))
            )
        ),
        wire!(
            b"under",
            both!(name!(b"was_less"), not!(bit!(b"right3", 16)))
        ),
    ],
};

/// Appends the quarters that are right.
fn add_rights<'a>(items: &mut Vec<Item<'a>>) -> Result<(), AllocError>
    ensures { OnOk result (map item_of items.new.items ≡ map item_of items.old.items ++ right_wires) }
{
    add_fixed(items, &RIGHTS)
}

static MET: Fixed<'static> = Fixed {
    list: &[wire!(
        63,
        b"met",
        cat!(
            part!(b"right3", 15, 0),
            part!(b"right2", 15, 0),
            part!(b"right1", 15, 0),
            part!(b"part0", 15, 0)
        )
    )],
};

/// Appends the number that they are.
fn add_met<'a>(items: &mut Vec<Item<'a>>) -> Result<(), AllocError>
    ensures { OnOk result (map item_of items.new.items ≡ map item_of items.old.items ++ met_wires) }
{
    add_fixed(items, &MET)
}

static LATE: Fixed<'static> = Fixed {
    list: &[wire!(
        64,
        b"late",
        pick!(
            name!(b"past"),
            Expression::Constant(b"OVERFLOW"),
            pick!(
                name!(b"under"),
                sized!(65, 0),
                cat!(sized!(1, 0), name!(b"met"))
            )
        )
    )],
};

/// Appends the value that they are.
fn add_late<'a>(items: &mut Vec<Item<'a>>) -> Result<(), AllocError>
    ensures { OnOk result (map item_of items.new.items ≡ map item_of items.old.items ++ late_wires) }
{
    add_fixed(items, &LATE)
}

static BUSY: Fixed<'static> = Fixed {
    list: &[wire!(b"busy", name!(b"meets"))],
};

static BUSY_PRODUCT: Fixed<'static> = Fixed {
    list: &[
        wire!(b"busy", either!(name!(b"meets"), name!(b"begun"))),
        wire!(
            b"last",
            both!(
                name!(b"begun"),
                not!(name!(b"adds")),
                not!(Expression::Any(&name!(b"rest")))
            )
        ),
        wire!(
            64,
            b"product",
            pick!(
                either!(name!(b"spoilt"), name!(b"beyond")),
                Expression::Constant(b"OVERFLOW"),
                cat!(sized!(1, 0), name!(b"total"))
            )
        ),
    ],
};

/// Appends whether a number is made still, and what a product is.
fn add_busy<'a>(items: &mut Vec<Item<'a>>, product: bool) -> Result<(), AllocError>
    ensures { OnOk result (map item_of items.new.items ≡ map item_of items.old.items ++ busy_wires product) }
{
    if product {
        add_fixed(items, &BUSY_PRODUCT)
    } else {
        add_fixed(items, &BUSY)
    }
}

/// Appends the wires of the unit.
///
/// # Errors
///
/// `AllocError` where there is no memory for them.
pub fn add_unit_wires<'a>(items: &mut Vec<Item<'a>>, product: bool) -> Result<(), AllocError>
    ensures { OnOk result (map item_of items.new.items ≡ map item_of items.old.items ++ unit_wires product) }
{
    add_meets(items)?;
    add_rights(items)?;
    add_met(items)?;
    add_late(items)?;
    add_busy(items, product)
}
