//! What a row does, each told by a bit.

ghost use Rattle.std.specs.Prelude.{◌≡◌};
ghost use Rattle.joined_module.specs.Fields.{changes, needs_value, at_value, tests_value, sees_later, takes_operand, makes_number};
ghost use Rattle.joined_module.specs.Fields.{subtracts_in, multiplies_in, kept_operand, opens_fork, opens_above, is_kept, closes_fork};
ghost use Rattle.joined_module.specs.Fields.{answers_in};
ghost use Rattle.joined_data.specs.Views.{worth_view, site_view, deed_view, operand_if, row_view};
ghost use Rattle.joined_data.specs.Figures.{flag_at};

use crate::operands::{is_minus, is_times, kept_operand};
use crate::origins::{is_new_cell, row_looks};
use crate::rows::{Deed, Row, Site, Worth};

/// A field of one bit.
#[derive(Clone, Copy)]
pub enum Flag {
    /// The row waits for what is seen at its key.
    Waits,
    /// What is seen where it ends is seen an edge later.
    Later,
    /// Whether the value is 0 has to be known.
    Tests,
    /// No number may be on its way.
    Needs,
    /// It ends with the run's answer.
    Ends,
    /// It makes a cell.
    Makes,
    /// It opens a fork.
    Opens,
    /// The fork that it opens is above its new cell.
    Above,
    /// It keeps an answer at a fork.
    Keeps,
    /// It closes a fork.
    Closes,
    /// It is an answer to a fork.
    Touches,
    /// The value is an operand.
    Takes,
    /// The value is what two operands come to.
    Computes,
    /// That is a difference.
    Subtracts,
    /// That is a product.
    Multiplies,
}

/// The value changes.
fn changes(worth: Worth) -> bool
    ensures { result ≡ changes (worth_view worth) }
{
    match worth {
        Worth::Stays => false,
        _ => true,
    }
}

/// The value is looked at.
fn at_value(site: Site) -> bool
    ensures { result ≡ at_value (site_view site) }
{
    match site {
        Site::OnValue => true,
        _ => false,
    }
}

/// An answer is kept at a fork.
fn keeps(deed: Deed) -> bool
    ensures { result ≡ is_kept (kept_operand (deed_view deed.entry)) }
{
    match kept_operand(deed) {
        None => false,
        Some(_) => true,
    }
}

/// No number may be on its way.
fn needs_value(row: &Row) -> bool
    ensures { result ≡ needs_value (row_view row.now) }
{
    changes(row.worth) || keeps(row.fork)
}

/// Whether the value is 0 has to be known.
fn tests_value(row: &Row) -> bool
    ensures { result ≡ tests_value (row_view row.now) }
{
    at_value(row.site) && !changes(row.worth)
}

/// What is seen where the row ends is seen an edge later.
pub(crate) fn sees_later(row: &Row) -> bool
    ensures { result ≡ sees_later (row_view row.now) }
{
    (at_value(row.site) && changes(row.worth)) || is_new_cell(row_looks(row))
}

/// The value is an operand.
fn takes_operand(worth: Worth) -> bool
    ensures { result ≡ takes_operand (worth_view worth) }
{
    match worth {
        Worth::Tells(_) => true,
        _ => false,
    }
}

/// The value is what two operands come to.
fn makes_number(worth: Worth) -> bool
    ensures { result ≡ makes_number (worth_view worth) }
{
    match worth {
        Worth::ComesTo(_, _, _) => true,
        _ => false,
    }
}

/// It is a difference.
fn subtracts_in(worth: Worth) -> bool
    ensures { result ≡ subtracts_in (worth_view worth) }
{
    match worth {
        Worth::ComesTo(operator, _, _) => is_minus(operator),
        _ => false,
    }
}

/// It is a product.
pub(crate) fn multiplies_in(worth: Worth) -> bool
    ensures { result ≡ multiplies_in (worth_view worth) }
{
    match worth {
        Worth::ComesTo(operator, _, _) => is_times(operator),
        _ => false,
    }
}

/// A fork is opened.
fn opens_fork(deed: Deed) -> bool
    ensures { result ≡ opens_fork (deed_view deed.entry) }
{
    match deed {
        Deed::Opens(_, _, _) => true,
        _ => false,
    }
}

/// It is above the new cell.
fn opens_above(deed: Deed) -> bool
    ensures { result ≡ opens_above (deed_view deed.entry) }
{
    match deed {
        Deed::Opens(_, above, _) => above,
        _ => false,
    }
}

/// A fork is closed.
fn closes_fork(deed: Deed) -> bool
    ensures { result ≡ closes_fork (deed_view deed.entry) }
{
    match deed {
        Deed::Closes => true,
        _ => false,
    }
}

/// A fork is answered.
fn answers_in(deed: Deed) -> bool
    ensures { result ≡ answers_in (deed_view deed.entry) }
{
    match deed {
        Deed::Closes | Deed::Keeps(_) => true,
        _ => false,
    }
}

/// What a flag is in a row.
pub fn flagged(flag: Flag, row: &Row) -> bool
    ensures { result ≡ flag_at flag (row_view row.now) }
{
    match flag {
        Flag::Waits => row.waits,
        Flag::Later => sees_later(row),
        Flag::Tests => tests_value(row),
        Flag::Needs => needs_value(row),
        Flag::Ends => row.ends,
        Flag::Makes => row.makes,
        Flag::Opens => opens_fork(row.fork),
        Flag::Above => opens_above(row.fork),
        Flag::Keeps => keeps(row.fork),
        Flag::Closes => closes_fork(row.fork),
        Flag::Touches => answers_in(row.fork),
        Flag::Takes => takes_operand(row.worth),
        Flag::Computes => makes_number(row.worth),
        Flag::Subtracts => subtracts_in(row.worth),
        Flag::Multiplies => multiplies_in(row.worth),
    }
}
