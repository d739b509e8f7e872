//! Whether the row rests, and the count of moves.

ghost use Rattle.std.specs.Prelude.{◌≡◌, ◌++◌, OnOk, map};
ghost use Rattle.joined_fixed.specs.Parts.{rest_flags, count_wires};
ghost use Rattle.verilog_tree.specs.Views.{item_of};

use crate::arena::{Fixed, add_fixed};
use std::alloc::AllocError;
use verilog_tree::Item;

static REST_FLAGS: Fixed<'static> = Fixed {
    list: &[
        Item::Gap,
        Item::Note(b"Whether the row rests, whether it is made now, and whether a number begins."),
        wire!(
            b"rests",
            either!(
                name!(b"ended"),
                name!(b"full"),
                both!(name!(b"busy"), name!(b"needs")),
                both!(either!(name!(b"busy"), name!(b"changed")), name!(b"tests")),
                both!(name!(b"fresh"), name!(b"touches"))
            )
        ),
        wire!(b"acts", both!(not!(name!(b"rests")), not!(name!(b"waits")))),
        wire!(b"starts", both!(name!(b"acts"), name!(b"computes"))),
        Item::Gap,
        Item::Note(b"---- forks"),
        Item::Gap,
    ],
};

/// Appends whether the row rests, whether it is made, and whether a number begins; and the head of forks.
///
/// # Errors
///
/// `AllocError` where there is no memory for it.
pub fn add_rest_flags<'a>(items: &mut Vec<Item<'a>>) -> Result<(), AllocError>
    ensures { OnOk result (map item_of items.new.items ≡ map item_of items.old.items ++ rest_flags) }
{
    add_fixed(items, &REST_FLAGS)
}

static COUNTS: Fixed<'static> = Fixed {
    list: &[
        Item::Gap,
        Item::Note(b"---- the count of moves, its upper half an edge behind"),
        Item::Gap,
        wire!(
            8,
            b"moves_low",
            plus!(cat!(sized!(1, 0), part!(b"moves", 7, 0)), name!(b"counts"))
        ),
        wire!(
            24,
            b"moves_middle",
            plus!(
                cat!(sized!(1, 0), part!(b"moves", 31, 8)),
                cat!(sized!(24, 0), bit!(b"moves_low", 8))
            )
        ),
        wire!(
            31,
            b"moves_high",
            plus!(
                part!(b"moves", 63, 32),
                cat!(sized!(31, 0), name!(b"carried"))
            )
        ),
    ],
};

/// Appends the count of moves.
///
/// # Errors
///
/// `AllocError` where there is no memory for it.
pub fn add_count_wires<'a>(items: &mut Vec<Item<'a>>) -> Result<(), AllocError>
    ensures { OnOk result (map item_of items.new.items ≡ map item_of items.old.items ++ count_wires) }
{
    add_fixed(items, &COUNTS)
}
