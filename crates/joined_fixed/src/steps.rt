//! What the clock does that no table changes.

ghost use Rattle.std.specs.Prelude.{◌≡◌};
ghost use Rattle.joined_module.specs.Module.{zero_stmt_of, value_stmt, count_stmt, read_fork};
ghost use Rattle.joined_fixed.specs.Parts.{fork_rest, top_stmt, end_stmt, full_stmt, done_stmt, nothing};
ghost use Rattle.verilog_tree.specs.Views.{stmt_of};

use verilog_tree::{Expression, Place, Statement};

static ZERO: Statement<'static> = block!(
    set!(b"nonzero", Expression::Any(&name!(b"result"))),
    set!(
        b"changed",
        either!(
            name!(b"rst"),
            name!(b"meets"),
            both!(name!(b"acts"), name!(b"takes"))
        )
    )
);

static ZERO_PRODUCT: Statement<'static> = block!(
    set!(b"nonzero", Expression::Any(&name!(b"result"))),
    set!(
        b"changed",
        either!(
            name!(b"rst"),
            name!(b"meets"),
            name!(b"last"),
            both!(name!(b"acts"), name!(b"takes"))
        )
    )
);

/// Whether the value is 0.
pub fn zero_statement<'a>(product: bool) -> &'a Statement<'a>
    ensures { stmt_of result.now ≡ zero_stmt_of product }
{
    if product { &ZERO_PRODUCT } else { &ZERO }
}

static VALUE: Statement<'static> = branch!(
    name!(b"meets"),
    set!(b"result", name!(b"late")),
    branch!(
        both!(name!(b"acts"), name!(b"takes")),
        set!(b"result", name!(b"first"))
    )
);

static VALUE_PRODUCT: Statement<'static> = branch!(
    name!(b"meets"),
    set!(b"result", name!(b"late")),
    branch!(
        name!(b"last"),
        set!(b"result", name!(b"product")),
        branch!(
            both!(name!(b"acts"), name!(b"takes")),
            set!(b"result", name!(b"first"))
        )
    )
);

/// The value comes.
pub fn value_statement<'a>(product: bool) -> &'a Statement<'a>
    ensures { stmt_of result.now ≡ value_stmt product }
{
    if product { &VALUE_PRODUCT } else { &VALUE }
}

static COUNT: Statement<'static> = block!(
    set!(b"carried", both!(name!(b"acts"), bit!(b"moves_middle", 24))),
    set!(
        b"moves",
        cat!(
            name!(b"moves_high"),
            pick!(
                name!(b"acts"),
                cat!(part!(b"moves_middle", 23, 0), part!(b"moves_low", 7, 0)),
                part!(b"moves", 31, 0)
            )
        )
    )
);

/// Moves are counted.
pub fn count_statement<'a>() -> &'a Statement<'a>
    ensures { stmt_of result.now ≡ count_stmt }
{
    &COUNT
}

static READ_FORK: Statement<'static> = branch!(
    either!(name!(b"acts"), name!(b"fresh")),
    set!(
        b"fork_has",
        Expression::Word(b"forks", &name!(b"reads_fork"))
    )
);

/// What the innermost fork has is read.
pub fn read_fork<'a>() -> &'a Statement<'a>
    ensures { stmt_of result.now ≡ read_fork }
{
    &READ_FORK
}

static FORK_REST: Statement<'static> = block!(
    branch!(
        both!(name!(b"acts"), name!(b"keeps")),
        Statement::Put(
            Place::Word(b"answers", name!(b"keeps_at")),
            name!(b"second")
        ),
        branch!(
            either!(name!(b"acts"), name!(b"fresh")),
            set!(b"kept", Expression::Word(b"answers", &name!(b"reads_fork")))
        )
    ),
    branch!(
        both!(name!(b"acts"), name!(b"closes")),
        set!(b"depth", name!(b"innermost"))
    ),
    set!(
        b"fresh",
        both!(name!(b"acts"), either!(name!(b"opens"), name!(b"keeps")))
    )
);

/// An answer is kept or read, a fork is closed, and what was written is fresh.
pub fn fork_rest<'a>() -> &'a Statement<'a>
    ensures { stmt_of result.now ≡ fork_rest }
{
    &FORK_REST
}

static TOP: Statement<'static> = set!(b"top", name!(b"next_top"));

/// The cells in use.
pub fn top_statement<'a>() -> &'a Statement<'a>
    ensures { stmt_of result.now ≡ top_stmt }
{
    &TOP
}

static END: Statement<'static> = branch!(name!(b"ends"), set!(b"ended", num!(1)));

/// The run's answer was told.
pub fn end_statement<'a>() -> &'a Statement<'a>
    ensures { stmt_of result.now ≡ end_stmt }
{
    &END
}

static FULL: Statement<'static> = set!(b"full", num!(1));

/// There is no row, or too little room.
pub fn full_statement<'a>() -> &'a Statement<'a>
    ensures { stmt_of result.now ≡ full_stmt }
{
    &FULL
}

static DONE: Statement<'static> = branch!(
    both!(name!(b"ended"), not!(name!(b"busy"))),
    set!(b"done", num!(1))
);

/// The run has ended.
pub fn done_statement<'a>() -> &'a Statement<'a>
    ensures { stmt_of result.now ≡ done_stmt }
{
    &DONE
}

static NOTHING: Statement<'static> = Statement::Skip;

/// Nothing at all.
pub fn nothing<'a>() -> &'a Statement<'a>
    ensures { stmt_of result.now ≡ nothing }
{
    &NOTHING
}
