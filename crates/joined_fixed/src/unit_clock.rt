//! The unit of numbers in each cycle.

ghost use Rattle.std.specs.Prelude.{◌≡◌};
ghost use Rattle.joined_module.specs.Unit.{unit_stmt};
ghost use Rattle.verilog_tree.specs.Views.{stmt_of};

use verilog_tree::{Direction, Expression, Statement};

/// The quarters meet.
const MEET: Statement<'static> = block!(
    set!(b"part0", part!(b"meet0", 17, 1)),
    set!(b"part1", part!(b"meet1", 17, 1)),
    set!(b"next1", part!(b"more1", 17, 1)),
    set!(b"part2", part!(b"meet2", 17, 1)),
    set!(b"next2", part!(b"more2", 17, 1)),
    set!(b"part3", part!(b"meet3", 17, 1)),
    set!(b"next3", part!(b"more3", 17, 1))
);

/// Whether an operand is an overflow.
const SPOILT: Statement<'static> = set!(
    b"spoilt",
    either!(bit!(b"first", 64), bit!(b"second", 64))
);

static UNIT: Statement<'static> = block!(
    MEET,
    set!(b"was_less", name!(b"less")),
    SPOILT,
    set!(b"meets", both!(name!(b"starts"), not!(name!(b"rst"))))
);

static UNIT_PRODUCT: Statement<'static> = block!(
    MEET,
    set!(b"was_less", name!(b"less")),
    branch!(
        name!(b"begun"),
        block!(
            set!(b"adds", not!(name!(b"adds"))),
            branch!(
                name!(b"adds"),
                block!(
                    branch!(
                        bit!(b"rest", 0),
                        block!(
                            set!(b"total", name!(b"met")),
                            set!(
                                b"beyond",
                                either!(name!(b"beyond"), name!(b"lost"), bit!(b"right3", 16))
                            )
                        )
                    ),
                    set!(
                        b"rest",
                        Expression::Shift(Direction::Right, &name!(b"rest"), &num!(1))
                    ),
                    set!(
                        b"factor",
                        Expression::Shift(Direction::Left, &name!(b"factor"), &num!(1))
                    ),
                    set!(b"lost", either!(name!(b"lost"), bit!(b"factor", 63)))
                )
            )
        ),
        block!(
            SPOILT,
            set!(b"rest", part!(b"second", 63, 0)),
            set!(b"factor", part!(b"first", 63, 0)),
            set!(b"total", num!(0)),
            set!(b"lost", num!(0)),
            set!(b"beyond", num!(0)),
            set!(b"adds", num!(0))
        )
    ),
    set!(
        b"begun",
        both!(
            not!(name!(b"rst")),
            either!(
                both!(name!(b"starts"), name!(b"multiplies")),
                both!(name!(b"begun"), not!(name!(b"last")))
            )
        )
    ),
    set!(
        b"meets",
        both!(
            name!(b"starts"),
            not!(name!(b"multiplies")),
            not!(name!(b"rst"))
        )
    )
);

/// A number goes on.
pub fn unit_statement<'a>(product: bool) -> &'a Statement<'a>
    ensures { stmt_of result.now ≡ unit_stmt product }
{
    if product { &UNIT_PRODUCT } else { &UNIT }
}
