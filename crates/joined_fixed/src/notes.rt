//! Ports, registers, and what is said in front of each part.

ghost use Rattle.std.specs.Prelude.{◌≡◌, ◌++◌, OnOk, map};
ghost use Rattle.joined_module.specs.Module.{joined_ports, ports_said, lists_said, read_said, find_said, numbers_said};
ghost use Rattle.joined_fixed.specs.Parts.{cells_said, forks_said, store_rest, place_said, less_wires, clock_said};
ghost use Rattle.verilog_tree.specs.Views.{item_of};

use crate::arena::{Fixed, add_fixed};
use std::alloc::AllocError;
use verilog_tree::{Extent, Item, Range};

static PORTS: Fixed<'static> = Fixed {
    list: &[
        Item::Input(Range::One, b"clk"),
        Item::Input(Range::One, b"rst"),
        Item::Output(Range::One, b"done"),
        Item::Output(Range::UpTo(Extent::Count(64)), b"result"),
        Item::Output(Range::One, b"full"),
        Item::Output(Range::UpTo(Extent::Count(63)), b"moves"),
    ],
};

/// Appends the ports that each module has.
///
/// # Errors
///
/// `AllocError` where there is no memory for it.
pub fn add_ports<'a>(items: &mut Vec<Item<'a>>) -> Result<(), AllocError>
    ensures { OnOk result (map item_of items.new.items ≡ map item_of items.old.items ++ joined_ports) }
{
    add_fixed(items, &PORTS)
}

static PORTS_SAID: Fixed<'static> = Fixed {
    list: &[
        Item::Note(
            b"clk: every register changes at its rising edges. rst: high at a rising edge, where the run begins.",
        ),
        Item::Note(
            b"done: the run has ended with a value. result: the value, where done is up; bit 64 says overflow.",
        ),
        Item::Note(
            b"full: the run has ended without one, since the cells or the forks were too few.",
        ),
        Item::Note(b"moves: the moves of the run, where done is up."),
        Item::Gap,
        Item::Note(
            b"A value is a number of 64 bits; bit 64 says overflow, and then the others are 0.",
        ),
        Item::Constant(Range::UpTo(Extent::Count(64)), b"OVERFLOW", 1 << 64),
        Item::Gap,
        Item::Note(b"---- registers"),
        Item::Gap,
        Item::Note(b"The row."),
    ],
};

/// Appends what is said of them, and the number that an overflow is.
///
/// # Errors
///
/// `AllocError` where there is no memory for it.
pub fn add_ports_said<'a>(items: &mut Vec<Item<'a>>) -> Result<(), AllocError>
    ensures { OnOk result (map item_of items.new.items ≡ map item_of items.old.items ++ ports_said) }
{
    add_fixed(items, &PORTS_SAID)
}

static LISTS_SAID: Fixed<'static> = Fixed {
    list: &[
        Item::Gap,
        Item::Note(
            b"The token's signatures and boxes: each is a cell's place, and below that its shape's tag.",
        ),
    ],
};

/// Appends what is said of both lists.
///
/// # Errors
///
/// `AllocError` where there is no memory for it.
pub fn add_lists_said<'a>(items: &mut Vec<Item<'a>>) -> Result<(), AllocError>
    ensures { OnOk result (map item_of items.new.items ≡ map item_of items.old.items ++ lists_said) }
{
    add_fixed(items, &LISTS_SAID)
}

static CELLS_SAID: Fixed<'static> = Fixed {
    list: &[
        Item::Gap,
        Item::Note(b"The cells, how many are in use, and the one that was read."),
    ],
};

/// Appends what is said of the cells.
///
/// # Errors
///
/// `AllocError` where there is no memory for it.
pub fn add_cells_said<'a>(items: &mut Vec<Item<'a>>) -> Result<(), AllocError>
    ensures { OnOk result (map item_of items.new.items ≡ map item_of items.old.items ++ cells_said) }
{
    add_fixed(items, &CELLS_SAID)
}

static FORKS_SAID: Fixed<'static> = Fixed {
    list: &[
        Item::Gap,
        Item::Note(
            b"The open forks: the boxes and the cells in use when each was opened, and its left answer; how many there are; what",
        ),
        Item::Note(
            b"the innermost one has; and whether one of these was written at the last edge, and isn't read yet.",
        ),
    ],
};

/// Appends what is said of the forks.
///
/// # Errors
///
/// `AllocError` where there is no memory for it.
pub fn add_forks_said<'a>(items: &mut Vec<Item<'a>>) -> Result<(), AllocError>
    ensures { OnOk result (map item_of items.new.items ≡ map item_of items.old.items ++ forks_said) }
{
    add_fixed(items, &FORKS_SAID)
}

static STORE_REST: Fixed<'static> = Fixed {
    list: &[
        reg!(64, b"kept"),
        reg!(b"fresh"),
        Item::Gap,
        Item::Note(
            b"Whether the run's answer was told; whether the value was written at the last edge, and whether it was 0 before; and",
        ),
        Item::Note(b"whether the count of moves has a carry that its upper half wants."),
        reg!(b"ended"),
        reg!(b"changed"),
        reg!(b"nonzero"),
        reg!(b"carried"),
    ],
};

/// Appends the registers behind them.
///
/// # Errors
///
/// `AllocError` where there is no memory for it.
pub fn add_store_rest<'a>(items: &mut Vec<Item<'a>>) -> Result<(), AllocError>
    ensures { OnOk result (map item_of items.new.items ≡ map item_of items.old.items ++ store_rest) }
{
    add_fixed(items, &STORE_REST)
}

static READ_SAID: Fixed<'static> = Fixed {
    list: &[Item::Gap, Item::Note(b"---- what was read"), Item::Gap],
};

/// Appends the head of what was read.
///
/// # Errors
///
/// `AllocError` where there is no memory for it.
pub fn add_read_said<'a>(items: &mut Vec<Item<'a>>) -> Result<(), AllocError>
    ensures { OnOk result (map item_of items.new.items ≡ map item_of items.old.items ++ read_said) }
{
    add_fixed(items, &READ_SAID)
}

static PLACE_SAID: Fixed<'static> = Fixed {
    list: &[Item::Gap, Item::Note(b"---- what the row makes"), Item::Gap],
};

/// Appends the head of what the row makes.
///
/// # Errors
///
/// `AllocError` where there is no memory for it.
pub fn add_place_said<'a>(items: &mut Vec<Item<'a>>) -> Result<(), AllocError>
    ensures { OnOk result (map item_of items.new.items ≡ map item_of items.old.items ++ place_said) }
{
    add_fixed(items, &PLACE_SAID)
}

static FIND_SAID: Fixed<'static> = Fixed {
    list: &[
        Item::Gap,
        Item::Note(b"---- the row that the token comes to, by its key and by what is seen there"),
        Item::Gap,
    ],
};

/// Appends the head of the rows.
///
/// # Errors
///
/// `AllocError` where there is no memory for it.
pub fn add_find_said<'a>(items: &mut Vec<Item<'a>>) -> Result<(), AllocError>
    ensures { OnOk result (map item_of items.new.items ≡ map item_of items.old.items ++ find_said) }
{
    add_fixed(items, &FIND_SAID)
}

static NUMBERS_SAID: Fixed<'static> = Fixed {
    list: &[
        Item::Gap,
        Item::Note(b"---- numbers"),
        Item::Gap,
        Item::Note(
            b"Both operands, what their quarters come to, and whether a number isn't there yet.",
        ),
    ],
};

/// Appends the head of numbers.
///
/// # Errors
///
/// `AllocError` where there is no memory for it.
pub fn add_numbers_said<'a>(items: &mut Vec<Item<'a>>) -> Result<(), AllocError>
    ensures { OnOk result (map item_of items.new.items ≡ map item_of items.old.items ++ numbers_said) }
{
    add_fixed(items, &NUMBERS_SAID)
}

static LESS: Fixed<'static> = Fixed {
    list: &[wire!(b"less", name!(b"subtracts"))],
};

static LESS_PRODUCT: Fixed<'static> = Fixed {
    list: &[wire!(b"less", both!(name!(b"subtracts"), not!(name!(b"begun"))))],
};

/// Appends whether a difference is wanted.
///
/// # Errors
///
/// `AllocError` where there is no memory for it.
pub fn add_less<'a>(items: &mut Vec<Item<'a>>, product: bool) -> Result<(), AllocError>
    ensures { OnOk result (map item_of items.new.items ≡ map item_of items.old.items ++ less_wires product) }
{
    if product {
        add_fixed(items, &LESS_PRODUCT)
    } else {
        add_fixed(items, &LESS)
    }
}

static CLOCK_SAID: Fixed<'static> = Fixed {
    list: &[
        Item::Gap,
        Item::Note(b"---- one row in each cycle in which none rests"),
        Item::Gap,
    ],
};

/// Appends the head of the last part.
///
/// # Errors
///
/// `AllocError` where there is no memory for it.
pub fn add_clock_said<'a>(items: &mut Vec<Item<'a>>) -> Result<(), AllocError>
    ensures { OnOk result (map item_of items.new.items ≡ map item_of items.old.items ++ clock_said) }
{
    add_fixed(items, &CLOCK_SAID)
}
