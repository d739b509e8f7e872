//! Values, and forks.

ghost use Rattle.std.specs.Prelude.{◌≡◌, ◌||◌, IfOk, map};
ghost use Rattle.joined_rows.specs.Compound.{terms_of};
ghost use Rattle.joined_core.specs.Circuit.{is_new, any_new, forks_new, makes_cell};
ghost use Rattle.joined_module.specs.Rows.{first_value, operand, taken_worth, worth, walker_worth, walker_operand, half_kept};
ghost use Rattle.joined_module.specs.Rows.{half_answered};
ghost use Rattle.joined_module.specs.Rows.{term_place, forks_opened, forks_answered};
ghost use Rattle.joined_table.specs.Views.{term_view, mark_view, amount_view, walker_view, half_view, fork_view, named_view};
ghost use Rattle.joined_data.specs.Views.{operand_view, operand_if, worth_view, deed_view};
ghost use Rattle.joined_entries.specs.Views.{shape_view, given_from, value_named};

use crate::given::{Given, terms_origins};
use crate::numbers::{Shape, has_name};
use bumpalo::Bump;
use joined_data::{Deed, Operand, Worth};
use joined_table::{Amount, Fork, Half, Mark, Named, Term, Walker};
use pcf_values::Operator;
use std::alloc::{AllocError, Global};

/// What values' names stand for.
#[derive(Clone, Copy)]
pub(crate) enum Values {
    /// In a first part.
    First,
    /// In a second part, behind this answer.
    Second(Operand),
}

/// What a value's name stands for.
fn named_value(values: Values, n: u32) -> Operand
    ensures { operand_view result ≡ value_named values n }
{
    match values {
        Values::First => Operand::Value,
        Values::Second(x) => { if n == 0 { x } else { Operand::Kept } }
    }
}

/// An amount that is an operand.
#[tactic(auto, using(crate::proofs::Parts::literal_operand, crate::proofs::Parts::port_operand))]
fn operand(values: Values, amount: &Amount) -> Operand
    ensures { operand_view result ≡ operand (value_named values) (amount_view amount.now) }
{
    match amount {
        Amount::Name(n) => named_value(values, *n),
        Amount::Number(n) => Operand::Literal(*n),
        Amount::Port(i) => Operand::Port(*i),
        _ => Operand::Value,
    }
}

/// The value that an answer tells.
fn taken_worth(x: Operand) -> Worth
    ensures { worth_view result ≡ taken_worth (operand_view x) }
{
    match x {
        Operand::Value => Worth::Stays,
        other => Worth::Tells(other),
    }
}

/// The value of an amount.
fn worth(values: Values, amount: &Amount) -> Worth
    ensures { worth_view result ≡ worth (value_named values) (amount_view amount.now) }
{
    match amount {
        Amount::More(a) => Worth::ComesTo(Operator::Plus, operand(values, a), Operand::Literal(1)),
        Amount::Less(a) => Worth::ComesTo(Operator::Minus, operand(values, a), Operand::Literal(1)),
        Amount::Both(o, a, b) => Worth::ComesTo(*o, operand(values, a), operand(values, b)),
        other => taken_worth(operand(values, other)),
    }
}

/// The value after a walker.
pub(crate) fn walker_worth(values: Values, walker: &Walker) -> Worth
    ensures { worth_view result ≡ walker_worth (value_named values) (walker_view walker.now) }
{
    match walker {
        Walker::Asks(_) => Worth::Stays,
        Walker::Says(a, _) => worth(values, a),
    }
}

/// The operand that an answer is.
pub(crate) fn walker_operand(walker: &Walker) -> Operand
    ensures { operand_view result ≡ walker_operand (walker_view walker.now) }
{
    match walker {
        Walker::Asks(_) => Operand::Value,
        Walker::Says(a, _) => operand(Values::First, a),
    }
}

/// What a fork keeps when it is opened.
fn half_kept(half: &Half) -> Option<Operand>
    ensures { operand_if result ≡ half_kept first_value (half_view half.now) }
{
    match half {
        Half::Waiting(_) => None,
        Half::Left(a) => Some(operand(Values::First, a)),
    }
}

/// What it keeps after an answer.
fn half_answered(values: Values, half: &Half) -> Operand
    ensures { operand_view result ≡ half_answered (value_named values) (half_view half.now) }
{
    match half {
        Half::Waiting(_) => Operand::Value,
        Half::Left(a) => operand(values, a),
    }
}

/// Whether a term is a new shape that has names.
fn is_new(x: &Term) -> bool
    ensures { result ≡ is_new (term_view x.now) }
{
    match x {
        Term::Name(_) => false,
        other => has_name(other),
    }
}

/// Whether one of these is.
fn any_new(terms: &[Term]) -> bool
    ensures { result ≡ any_new (map term_view terms.now) }
{
    match terms {
        [] => false,
        [first, rest @ ..] => is_new(first) || any_new(rest),
    }
}

/// Whether one of the signatures of these is.
fn marks_new(marks: &[Mark]) -> bool
    ensures { result ≡ any_new (terms_of (map mark_view marks.now)) }
{
    match marks {
        [] => false,
        [Mark::Sign(x), rest @ ..] => is_new(x) || marks_new(rest),
        [_, rest @ ..] => marks_new(rest),
    }
}

/// Whether one of the boxes of these forks is.
fn forks_new(forks: &[Fork]) -> bool
    ensures { result ≡ forks_new (map fork_view forks.now) }
{
    match forks {
        [] => false,
        [first, rest @ ..] => any_new(&first.boxes) || forks_new(rest),
    }
}

/// Whether a row makes a cell.
pub(crate) fn makes_cell(to: &Named) -> bool
    ensures { result ≡ makes_cell (named_view to.now) }
{
    let spot = to.live.spot();
    marks_new(&spot.work) || (any_new(&spot.boxes) || forks_new(&to.forks))
}

/// The forks after a first part.
pub(crate) fn forks_opened<'a>(
    alloc: Global,
    bump: &'a Bump,
    shapes: &[Shape],
    given: &Given,
    forks: &[Fork],
) -> Result<Deed<'a>, AllocError>
    ensures { IfOk result (λ d. deed_view d
        ≡ forks_opened (term_place (map shape_view shapes.now)) (given_from (term_place (map shape_view shapes.now)) given.now)
        (map fork_view forks.now)) }
{
    match forks {
        [] => Ok(Deed::Leaves),
        [first, ..] => {
            let boxes = terms_origins(alloc, bump, shapes, given, &first.boxes)?;
            Ok(Deed::Opens(boxes, forks_new(forks), half_kept(&first.half)))
        }
    }
}

/// And after a second one.
pub(crate) fn forks_answered<'a>(values: Values, forks: &[Fork]) -> Deed<'a>
    ensures { deed_view result ≡ forks_answered (value_named values) (map fork_view forks.now) }
{
    match forks {
        [] => Deed::Closes,
        [first, ..] => Deed::Keeps(half_answered(values, &first.half)),
    }
}
