//! Conditions and places.

ghost use Rattle.std.specs.Prelude.{◌≡◌};
ghost use Rattle.joined_module.specs.Module.{now};
ghost use Rattle.joined_fixed.specs.Parts.{fetches, base_expr, next_top_expr, reads_fork_expr, keeps_at_expr, saved_top_expr};
ghost use Rattle.verilog_tree.specs.Tree.{name};
ghost use Rattle.verilog_tree.specs.Views.{expr_of};

use verilog_tree::Expression;

static RESETS: Expression<'static> = name!(b"rst");

/// The reset is high.
pub fn resets<'a>() -> &'a Expression<'a>
    ensures { expr_of result.now ≡ name "rst" }
{
    &RESETS
}

static ACTS: Expression<'static> = name!(b"acts");

/// The row is made.
pub fn acts<'a>() -> &'a Expression<'a>
    ensures { expr_of result.now ≡ name "acts" }
{
    &ACTS
}

static OPENS: Expression<'static> = both!(name!(b"acts"), name!(b"opens"));

/// A fork is opened now.
pub fn opens_now<'a>() -> &'a Expression<'a>
    ensures { expr_of result.now ≡ now "opens" }
{
    &OPENS
}

static MAKES: Expression<'static> = name!(b"makes");

/// A cell is made.
pub fn makes<'a>() -> &'a Expression<'a>
    ensures { expr_of result.now ≡ name "makes" }
{
    &MAKES
}

static FETCHES: Expression<'static> = either!(name!(b"rst"), not!(name!(b"rests")));

/// The next row is fetched.
pub fn fetches<'a>() -> &'a Expression<'a>
    ensures { expr_of result.now ≡ fetches }
{
    &FETCHES
}

static BASE: Expression<'static> = name!(b"base");

/// The place of a new cell.
pub fn base<'a>() -> &'a Expression<'a>
    ensures { expr_of result.now ≡ name "base" }
{
    &BASE
}

static NEW_BASE: Expression<'static> = pick!(name!(b"touches"), name!(b"fork_top"), name!(b"top"));

/// What it is.
pub fn base_expression<'a>() -> &'a Expression<'a>
    ensures { expr_of result.now ≡ base_expr }
{
    &NEW_BASE
}

static NEXT_TOP: Expression<'static> = pick!(
    name!(b"makes"),
    plus!(name!(b"base"), sized!(1, 1)),
    name!(b"base")
);

/// The cells in use after the row.
pub fn next_top_expression<'a>() -> &'a Expression<'a>
    ensures { expr_of result.now ≡ next_top_expr }
{
    &NEXT_TOP
}

static READS_FORK: Expression<'static> = pick!(
    both!(name!(b"closes"), not!(name!(b"fresh"))),
    name!(b"around"),
    name!(b"innermost")
);

/// The fork that is read.
pub fn reads_fork_expression<'a>() -> &'a Expression<'a>
    ensures { expr_of result.now ≡ reads_fork_expr }
{
    &READS_FORK
}

static KEEPS_AT: Expression<'static> = pick!(name!(b"opens"), name!(b"depth"), name!(b"innermost"));

/// The fork at which an answer is kept.
pub fn keeps_at_expression<'a>() -> &'a Expression<'a>
    ensures { expr_of result.now ≡ keeps_at_expr }
{
    &KEEPS_AT
}

static SAVED_TOP: Expression<'static> = name!(b"saved_top");

/// The cells in use when a fork is opened.
pub fn saved_top<'a>() -> &'a Expression<'a>
    ensures { expr_of result.now ≡ name "saved_top" }
{
    &SAVED_TOP
}

static NEW_SAVED_TOP: Expression<'static> = pick!(
    name!(b"above"),
    name!(b"next_top"),
    name!(b"base")
);

/// What they are.
pub fn saved_top_expression<'a>() -> &'a Expression<'a>
    ensures { expr_of result.now ≡ saved_top_expr }
{
    &NEW_SAVED_TOP
}
