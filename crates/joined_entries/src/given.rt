//! Where pointers' names come from.

ghost use Rattle.std.specs.Prelude.{◌≡◌, ◌++◌, [], ◌∷◌, OnOk, IfOk, map};
ghost use Rattle.joined_rows.specs.Compound.{has_name, terms_of};
ghost use Rattle.joined_core.specs.Rows.{given_at};
ghost use Rattle.joined_module.specs.Rows.{term_place, part_from, first_from, second_from, shape_pointer, term_from, terms_from};
ghost use Rattle.joined_table.specs.Views.{term_view, mark_view, source_view, site_view};
ghost use Rattle.joined_data.specs.Views.{origin_view};
ghost use Rattle.joined_entries.specs.Views.{shape_view, given_from};

use crate::numbers::{Shape, has_name, star_tag, term_place};
use bumpalo::Bump;
use joined_data::Origin;
use joined_table::{Mark, Site, Source, Term};
use std::alloc::{AllocError, Global};

/// Where names come from.
#[derive(Clone, Copy)]
pub(crate) enum Given<'t> {
    /// In a first part, with what was looked at.
    First(Site, &'t [Source]),
    /// In a second part.
    Second(&'t [Source]),
}

/// The shape of a part, at the cell that is looked at.
fn part_origin(shapes: &[Shape], site: Site, has_cell: bool, x: &Term) -> Origin
    ensures { origin_view result ≡ part_from (term_place (map shape_view shapes.now)) (site_view site) has_cell (term_view x.now) }
{
    let tag = term_place(shapes, x);
    match site {
        Site::OnSigs => {
            if has_cell {
                Origin::SigPart(tag)
            } else {
                Origin::Bare(tag)
            }
        }
        Site::OnBoxes => {
            if has_cell {
                Origin::BoxPart(tag)
            } else {
                Origin::Bare(tag)
            }
        }
        _ => Origin::Bare(tag),
    }
}

/// A name's pointer in the first part.
fn first_origin(shapes: &[Shape], site: Site, source: &Source) -> Origin
    ensures { origin_view result ≡ first_from (term_place (map shape_view shapes.now)) (site_view site) (source_view source.now) }
{
    match source {
        Source::Sig(i) => Origin::Sig(*i),
        Source::Box(i) => Origin::Boxed(*i),
        Source::Word(i) => Origin::Word(*i),
        Source::Part(x) => part_origin(shapes, site, has_name(x), x),
    }
}

/// And in the second one.
fn second_origin(shapes: &[Shape], source: &Source) -> Origin
    ensures { origin_view result ≡ second_from (term_place (map shape_view shapes.now)) (source_view source.now) }
{
    match source {
        Source::Box(i) => Origin::Fork(*i),
        Source::Part(x) => Origin::Bare(term_place(shapes, x)),
        _ => Origin::Bare(star_tag(shapes)),
    }
}

/// The pointer of the name of a number, in the first part.
#[tactic(auto, using(crate::proofs::Parts::star_part))]
fn first_given(shapes: &[Shape], site: Site, list: &[Source], n: u32) -> Origin
    ensures { origin_view result
        ≡ first_from (term_place (map shape_view shapes.now)) (site_view site) (given_at (map source_view list.now) n) }
{
    match list {
        [] => Origin::Bare(star_tag(shapes)),
        [first, rest @ ..] => {
            if n == 0 {
                first_origin(shapes, site, first)
            } else {
                first_given(shapes, site, rest, n - 1)
            }
        }
    }
}

/// And in the second one.
fn second_given(shapes: &[Shape], list: &[Source], n: u32) -> Origin
    ensures { origin_view result ≡ second_from (term_place (map shape_view shapes.now)) (given_at (map source_view list.now) n) }
{
    match list {
        [] => Origin::Bare(star_tag(shapes)),
        [first, rest @ ..] => {
            if n == 0 {
                second_origin(shapes, first)
            } else {
                second_given(shapes, rest, n - 1)
            }
        }
    }
}

/// The pointer of the name of a number.
pub(crate) fn named_origin(shapes: &[Shape], given: &Given, n: u32) -> Origin
    ensures { origin_view result ≡ given_from (term_place (map shape_view shapes.now)) given.now n }
{
    match *given {
        Given::First(site, list) => first_given(shapes, site, list, n),
        Given::Second(list) => second_given(shapes, list, n),
    }
}

/// The pointer of a term that is no name.
fn shape_pointer(shapes: &[Shape], x: &Term) -> Origin
    ensures { origin_view result ≡ shape_pointer (term_place (map shape_view shapes.now)) (term_view x.now) }
{
    let tag = term_place(shapes, x);
    if has_name(x) {
        Origin::New(tag)
    } else {
        Origin::Bare(tag)
    }
}

/// The pointer of a term.
fn term_origin(shapes: &[Shape], given: &Given, x: &Term) -> Origin
    ensures { origin_view result
        ≡ term_from (term_place (map shape_view shapes.now)) (given_from (term_place (map shape_view shapes.now)) given.now)
        (term_view x.now) }
{
    match x {
        Term::Name(n) => named_origin(shapes, given, *n),
        _ => shape_pointer(shapes, x),
    }
}

/// Appends a pointer.
fn add_origin(found: &mut Vec<Origin>, o: Origin) -> Result<(), AllocError>
    ensures { OnOk result (map origin_view found.new.items ≡ map origin_view found.old.items ++ (origin_view o ∷ [])) }
{
    found.push(o)?;
    Ok(())
}

/// Appends the pointers of terms.
fn add_terms(
    found: &mut Vec<Origin>,
    shapes: &[Shape],
    given: &Given,
    terms: &[Term],
) -> Result<(), AllocError>
    ensures { OnOk result (map origin_view found.new.items ≡ map origin_view found.old.items
        ++ terms_from (term_place (map shape_view shapes.now)) (given_from (term_place (map shape_view shapes.now)) given.now)
        (map term_view terms.now)) }
{
    match terms {
        [] => Ok(()),
        [first, rest @ ..] => {
            add_origin(found, term_origin(shapes, given, first))?;
            add_terms(found, shapes, given, rest)
        }
    }
}

/// Appends the pointers of the signatures of marks.
fn add_marks(
    found: &mut Vec<Origin>,
    shapes: &[Shape],
    given: &Given,
    marks: &[Mark],
) -> Result<(), AllocError>
    ensures { OnOk result (map origin_view found.new.items ≡ map origin_view found.old.items
        ++ terms_from (term_place (map shape_view shapes.now)) (given_from (term_place (map shape_view shapes.now)) given.now)
        (terms_of (map mark_view marks.now))) }
{
    match marks {
        [] => Ok(()),
        [Mark::Sign(x), rest @ ..] => {
            add_origin(found, term_origin(shapes, given, x))?;
            add_marks(found, shapes, given, rest)
        }
        [_, rest @ ..] => add_marks(found, shapes, given, rest),
    }
}

/// The pointers of terms.
pub(crate) fn terms_origins<'a>(
    alloc: Global,
    bump: &'a Bump,
    shapes: &[Shape],
    given: &Given,
    terms: &[Term],
) -> Result<&'a [Origin], AllocError>
    ensures { IfOk result (λ r. map origin_view r.now
        ≡ terms_from (term_place (map shape_view shapes.now)) (given_from (term_place (map shape_view shapes.now)) given.now)
        (map term_view terms.now)) }
{
    let mut found = Vec::new(alloc);
    add_terms(&mut found, shapes, given, terms)?;
    let kept = bump.try_alloc_slice_copy(found.as_slice())?;
    Ok(kept)
}

/// The pointers of the signatures of marks.
pub(crate) fn marks_origins<'a>(
    alloc: Global,
    bump: &'a Bump,
    shapes: &[Shape],
    given: &Given,
    marks: &[Mark],
) -> Result<&'a [Origin], AllocError>
    ensures { IfOk result (λ r. map origin_view r.now
        ≡ terms_from (term_place (map shape_view shapes.now)) (given_from (term_place (map shape_view shapes.now)) given.now)
        (terms_of (map mark_view marks.now))) }
{
    let mut found = Vec::new(alloc);
    add_marks(&mut found, shapes, given, marks)?;
    let kept = bump.try_alloc_slice_copy(found.as_slice())?;
    Ok(kept)
}

/// The pointers of the first two names.
pub(crate) fn words_origins<'a>(
    bump: &'a Bump,
    shapes: &[Shape],
    given: &Given,
) -> Result<&'a [Origin], AllocError>
    ensures { IfOk result (λ r. map origin_view r.now
        ≡ given_from (term_place (map shape_view shapes.now)) given.now 0
        ∷ given_from (term_place (map shape_view shapes.now)) given.now 1 ∷ []) }
{
    let words = [
        named_origin(shapes, given, 0),
        named_origin(shapes, given, 1),
    ];
    Ok(bump.try_alloc_slice_copy(&words)?)
}
