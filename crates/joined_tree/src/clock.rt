//! The block of the clock.

ghost use Rattle.std.specs.Prelude.{◌≡◌, IfOk, map};
ghost use Rattle.verilog_tree.specs.Tree.{logic, one_of};
ghost use Rattle.verilog_tree.specs.Names.{text_of};
ghost use Rattle.verilog_tree.specs.Views.{expr_of, stmt_of};
ghost use Rattle.joined_module.specs.Module.{fetch_stmt, fork_stmt, no_room_expr, act_stmt, go_stmt};
ghost use Rattle.joined_module.specs.Module.{reset_stmt, joined_clock_stmt};
ghost use Rattle.joined_fields.specs.Views.{field_view, widths_view, Narrow};
ghost use Rattle.joined_tree.specs.Parts.{at_limit, cell_wanted, ends_stmt, fork_written, last_zeroed, lists_stmt, looked_place};
ghost use Rattle.joined_tree.specs.Parts.{makes_stmt, one_deeper};

use crate::registers::{pointers_above, pointers_vector};
use bumpalo::Bump;
use joined_fields::{Field, Group, Widths, fetch_statement, list_statement};
use joined_fixed::{
    acts, count_statement, done_statement, end_statement, fetches, fork_rest, full_statement,
    makes, nothing, opens_now, put_branch, put_expression, put_name, put_seq, put_set, put_sized,
    put_statement, put_zeroed, read_fork, resets, saved_top, top_statement, unit_statement,
    value_statement, zero_statement,
};
use std::alloc::{AllocError, Global};
use verilog_tree::{Comparison, Connective, Expression, Extent, Operation, Place, Statement};

/// The cell that the next row wants.
fn cell_wanted<'a>(bump: &'a Bump, w: &Widths) -> Result<&'a Statement<'a>, AllocError>
    requires narrow { Narrow (widths_view w.now) }
    ensures { IfOk result (λ r. stmt_of r.now ≡ cell_wanted (widths_view w.now)) }
{
    let place = put_high(bump, w)?;
    put_set(bump, b"cell_has", &Expression::Word(b"cells", place))
}

/// The place of the pointer that is looked at.
fn put_high<'a>(bump: &'a Bump, w: &Widths) -> Result<&'a Expression<'a>, AllocError>
    requires narrow { Narrow (widths_view w.now) }
    ensures { IfOk result (λ r. expr_of r.now ≡ looked_place (widths_view w.now)) }
{
    let high = Extent::Count((w.place + w.tag).saturating_sub(1));
    put_expression(
        bump,
        &Expression::Part(b"looked", high, Extent::Count(w.tag)),
    )
}

/// The row that was found is fetched.
fn fetch<'a>(
    alloc: Global,
    bump: &'a Bump,
    w: &Widths,
    fields: &[Field<'a>],
) -> Result<&'a Statement<'a>, AllocError>
    requires narrow { Narrow (widths_view w.now) }
    ensures { IfOk result (λ r. stmt_of r.now ≡ fetch_stmt (widths_view w.now) (map field_view fields.now)) }
{
    let cell = cell_wanted(bump, w)?;
    let row = fetch_statement(alloc, bump, fields)?;
    let both = put_seq(bump, cell, row)?;
    put_branch(bump, fetches(), both, nothing())
}

/// A fork's boxes and the cells in use are written.
fn fork_written<'a>(
    alloc: Global,
    bump: &'a Bump,
    w: &Widths,
) -> Result<&'a Statement<'a>, AllocError>
    requires narrow { Narrow (widths_view w.now) }
    ensures { IfOk result (λ r. stmt_of r.now ≡ fork_written (widths_view w.now)) }
{
    let boxes = pointers_above(alloc, bump, Group::OpenBox, 0, w.saved, saved_top())?;
    let place = Place::Word(b"forks", Expression::Name(b"depth"));
    put_statement(bump, &Statement::Put(place, *boxes))
}

/// There is one fork more.
fn one_deeper<'a>(bump: &'a Bump, w: &Widths) -> Result<&'a Statement<'a>, AllocError>
    ensures { IfOk result (λ r. stmt_of r.now ≡ one_deeper (widths_view w.now)) }
{
    let depth = put_name(bump, b"depth")?;
    let one = put_sized(bump, w.depth, 1)?;
    let more = put_expression(bump, &Expression::Two(Operation::Plus, depth, one))?;
    put_set(bump, b"depth", more)
}

/// Forks.
fn forks<'a>(alloc: Global, bump: &'a Bump, w: &Widths) -> Result<&'a Statement<'a>, AllocError>
    requires narrow { Narrow (widths_view w.now) }
    ensures { IfOk result (λ r. stmt_of r.now ≡ fork_stmt (widths_view w.now)) }
{
    let written = fork_written(alloc, bump, w)?;
    let deeper = one_deeper(bump, w)?;
    let open = put_seq(bump, written, deeper)?;
    let first = put_branch(bump, opens_now(), open, read_fork())?;
    put_seq(bump, first, fork_rest())
}

/// A row wants a place, and there is none.
fn put_limit<'a>(
    bump: &'a Bump,
    wants: &'a [u8],
    at: &'a [u8],
    bits: u64,
    n: u64,
) -> Result<&'a Expression<'a>, AllocError>
    ensures { IfOk result (λ r. expr_of r.now ≡ at_limit (text_of wants.now) (text_of at.now) bits n) }
{
    let place = put_name(bump, at)?;
    let number = put_sized(bump, bits, n)?;
    let test = put_expression(bump, &Expression::Test(Comparison::Same, place, number))?;
    let flag = put_name(bump, wants)?;
    put_expression(bump, &Expression::Logic(Connective::Both, flag, test))
}

/// One or the other.
fn put_either<'a>(
    bump: &'a Bump,
    a: &'a Expression<'a>,
    b: &'a Expression<'a>,
) -> Result<&'a Expression<'a>, AllocError>
    ensures { IfOk result (λ r. expr_of r.now ≡ logic one_of (expr_of a.now) (expr_of b.now)) }
{
    put_expression(bump, &Expression::Logic(Connective::OneOf, a, b))
}

/// There is no row, or too little room.
fn no_room<'a>(bump: &'a Bump, w: &Widths) -> Result<&'a Expression<'a>, AllocError>
    ensures { IfOk result (λ r. expr_of r.now ≡ no_room_expr (widths_view w.now)) }
{
    let cells = put_limit(bump, b"makes", b"base", w.place, w.cells)?;
    let forks = put_limit(bump, b"opens", b"depth", w.depth, w.forks)?;
    let either = put_either(bump, cells, forks)?;
    let none = put_name(bump, b"none")?;
    put_either(bump, none, either)
}

/// Both lists come.
fn lists<'a>(
    alloc: Global,
    bump: &'a Bump,
    w: &Widths,
    rest: &'a Statement<'a>,
) -> Result<&'a Statement<'a>, AllocError>
    ensures { IfOk result (λ r. stmt_of r.now ≡ lists_stmt (widths_view w.now) (stmt_of rest.now)) }
{
    let boxes = list_statement(alloc, bump, Group::Boxed, Group::NextBox, w.boxes)?;
    let behind = put_seq(bump, boxes, rest)?;
    let sigs = list_statement(alloc, bump, Group::Sig, Group::NextSig, w.sigs)?;
    put_seq(bump, sigs, behind)
}

/// A cell is made.
fn cell_made<'a>(alloc: Global, bump: &'a Bump, w: &Widths) -> Result<&'a Statement<'a>, AllocError>
    ensures { IfOk result (λ r. stmt_of r.now ≡ makes_stmt (widths_view w.now)) }
{
    let words = pointers_vector(alloc, bump, Group::NewWord, w.words)?;
    let place = Place::Word(b"cells", Expression::Name(b"base"));
    let written = put_statement(bump, &Statement::Put(place, *words))?;
    put_branch(bump, makes(), written, nothing())
}

/// The run has ended, or is full.
fn ends<'a>(bump: &'a Bump, w: &Widths) -> Result<&'a Statement<'a>, AllocError>
    ensures { IfOk result (λ r. stmt_of r.now ≡ ends_stmt (widths_view w.now)) }
{
    let room = no_room(bump, w)?;
    let full = put_branch(bump, room, full_statement(), nothing())?;
    put_seq(bump, end_statement(), full)
}

/// What the row makes.
fn act<'a>(alloc: Global, bump: &'a Bump, w: &Widths) -> Result<&'a Statement<'a>, AllocError>
    ensures { IfOk result (λ r. stmt_of r.now ≡ act_stmt (widths_view w.now)) }
{
    let ends = ends(bump, w)?;
    let made = cell_made(alloc, bump, w)?;
    let cell = put_seq(bump, made, ends)?;
    let top = put_seq(bump, top_statement(), cell)?;
    lists(alloc, bump, w, top)
}

/// A cycle of the run.
fn go<'a>(
    alloc: Global,
    bump: &'a Bump,
    w: &Widths,
    product: bool,
) -> Result<&'a Statement<'a>, AllocError>
    requires narrow { Narrow (widths_view w.now) }
    ensures { IfOk result (λ r. stmt_of r.now ≡ go_stmt (widths_view w.now) product) }
{
    let act = act(alloc, bump, w)?;
    let acting = put_branch(bump, acts(), act, nothing())?;
    let ending = put_seq(bump, acting, done_statement())?;
    let counting = put_seq(bump, count_statement(), ending)?;
    let value = put_seq(bump, value_statement(product), counting)?;
    let forks = forks(alloc, bump, w)?;
    put_seq(bump, forks, value)
}

/// The last of what is set to 0, in front of the ports.
fn last_zeroed<'a>(bump: &'a Bump, held: &'a Statement<'a>) -> Result<&'a Statement<'a>, AllocError>
    ensures { IfOk result (λ r. stmt_of r.now ≡ last_zeroed (stmt_of held.now)) }
{
    let carried = put_zeroed(bump, b"carried", held)?;
    let moves = put_zeroed(bump, b"moves", carried)?;
    let result = put_zeroed(bump, b"result", moves)?;
    put_zeroed(bump, b"full", result)
}

/// The start.
#[tactic(auto, using(crate::proofs::Whole::held_lists))]
fn reset<'a>(alloc: Global, bump: &'a Bump, ports: u64) -> Result<&'a Statement<'a>, AllocError>
    ensures { IfOk result (λ r. stmt_of r.now ≡ reset_stmt ports) }
{
    let held = list_statement(alloc, bump, Group::Held, Group::Arg, ports)?;
    let last = last_zeroed(bump, held)?;
    let done = put_zeroed(bump, b"done", last)?;
    let ended = put_zeroed(bump, b"ended", done)?;
    let fresh = put_zeroed(bump, b"fresh", ended)?;
    let depth = put_zeroed(bump, b"depth", fresh)?;
    put_zeroed(bump, b"top", depth)
}

/// The block of the clock.
pub(crate) fn clock_statement<'a>(
    alloc: Global,
    bump: &'a Bump,
    w: &Widths,
    fields: &[Field<'a>],
    ports: u64,
    product: bool,
) -> Result<&'a Statement<'a>, AllocError>
    requires narrow { Narrow (widths_view w.now) }
    ensures { IfOk result (λ r. stmt_of r.now
        ≡ joined_clock_stmt (widths_view w.now) (map field_view fields.now) ports product) }
{
    let begins = reset(alloc, bump, ports)?;
    let goes_on = go(alloc, bump, w, product)?;
    let runs = put_branch(bump, resets(), begins, goes_on)?;
    let fetch = fetch(alloc, bump, w, fields)?;
    let fetching = put_seq(bump, fetch, runs)?;
    let zero = put_seq(bump, zero_statement(product), fetching)?;
    put_seq(bump, unit_statement(product), zero)
}
