//! Rows of a table as a module takes them.

ghost use Rattle.std.specs.Prelude.{◌≡◌, ◌≤◌, ◌++◌, ◌^◌, [], ◌∷◌, OnOk, IfOk, map};
ghost use Rattle.joined_core.specs.Rows.{onwards, answers_fork, test_moves, way_moves, row_moves};
ghost use Rattle.joined_module.specs.Rows.{numbering, term_place, row_sees, landing_row, ending_row, row_by_way, module_row, module_rows};
ghost use Rattle.joined_table.specs.Views.{named_view, seen_view, way_view, second_view, joined_row_view, entry_view};
ghost use Rattle.joined_table.specs.Views.{entries_view, sites_view};
ghost use Rattle.joined_table.specs.Views as table_views;
ghost use Rattle.joined_data.specs.Views.{site_view, sees_view, deed_view, worth_view, row_view};
ghost use Rattle.joined_entries.specs.Views.{numbers_view, shape_view, given_from};

use crate::given::{Given, marks_origins, terms_origins, words_origins};
use crate::numbers::{
    Numbers, Shape, add_shapes, key_number, site_at, term_place, walker_number, walker_site,
};
use crate::values::{
    Values, forks_answered, forks_opened, makes_cell, walker_operand, walker_worth,
};
use bumpalo::Bump;
use joined_data::{Deed, Row, Sees, Worth};
use joined_table::{Entry, JoinedRow, Named, Second, Seen, SiteAt, Way};
use std::alloc::{AllocError, Global};

/// What is looked at, as a module's row has it.
fn site_of(site: joined_table::Site) -> joined_data::Site
    ensures { site_view result ≡ table_views.site_view site }
{
    match site {
        joined_table::Site::Nowhere => joined_data::Site::Nowhere,
        joined_table::Site::OnSigs => joined_data::Site::OnSigs,
        joined_table::Site::OnBoxes => joined_data::Site::OnBoxes,
        joined_table::Site::OnValue => joined_data::Site::OnValue,
    }
}

/// What is seen, by its tag.
fn row_sees(shapes: &[Shape], seen: &Seen) -> Sees
    ensures { sees_view result ≡ row_sees (term_place (map shape_view shapes.now)) (seen_view seen.now) }
{
    match seen {
        Seen::Nothing => Sees::Nothing,
        Seen::Shaped(x) => Sees::Tag(term_place(shapes, x)),
        Seen::ZeroIs(b) => Sees::Zero(*b),
    }
}

/// The move of a test.
fn test_moves(seen: &Seen) -> u64
    ensures moves { result ≡ test_moves (seen_view seen.now) }
    ensures few { result ≤ 1 }
{
    match seen {
        Seen::ZeroIs(_) => 1,
        _ => 0,
    }
}

/// The moves of how a row ends.
fn way_moves(way: &Way) -> u64
    ensures moves { result ≡ way_moves (way_view way.now) }
    ensures few { result ≤ 2 ^ 32 }
{
    match way {
        Way::Onwards => 0,
        Way::AnswersRun => 1,
        Way::AnswersFork(q) => u64::from(q.moves) + 1,
    }
}

/// The moves of a row.
fn row_moves(seen: &Seen, row: &JoinedRow) -> u64
    ensures { result ≡ row_moves (seen_view seen.now) (joined_row_view row.now) }
{
    test_moves(seen) + (u64::from(row.moves) + way_moves(&row.way))
}

/// A row that ends at a key.
fn landing_row<'a>(
    alloc: Global,
    bump: &'a Bump,
    numbers: &Numbers,
    entry: &Entry,
    given: &Given,
    to: &Named,
    fork: Deed<'a>,
    worth: Worth,
) -> Result<Row<'a>, AllocError>
    ensures { IfOk result (λ r. row_view r ≡ landing_row (numbers_view numbers.now) (entry_view entry.now)
        (given_from (numbers_view numbers.now).tag given.now) (named_view to.now) (deed_view fork.entry) (worth_view worth)) }
{
    let spot = to.live.spot();
    let words = words_origins(bump, numbers.shapes, given)?;
    let sigs = marks_origins(alloc, bump, numbers.shapes, given, &spot.work)?;
    let boxes = terms_origins(alloc, bump, numbers.shapes, given, &spot.boxes)?;
    Ok(Row {
        key: key_number(numbers.entries, &entry.key),
        waits: false,
        sees: row_sees(numbers.shapes, &entry.seen),
        to: walker_number(numbers.entries, &to.live),
        site: site_of(walker_site(numbers.sites, &to.live)),
        moves: row_moves(&entry.seen, &entry.row),
        ends: false,
        makes: makes_cell(to),
        words,
        sigs,
        boxes,
        fork,
        worth,
    })
}

/// The run's answer.
fn ending_row<'a>(numbers: &Numbers, entry: &Entry, worth: Worth) -> Row<'a>
    ensures { row_view result ≡ ending_row (numbers_view numbers.now) (entry_view entry.now) (worth_view worth) }
{
    Row {
        key: key_number(numbers.entries, &entry.key),
        waits: false,
        sees: row_sees(numbers.shapes, &entry.seen),
        to: 0,
        site: joined_data::Site::Nowhere,
        moves: row_moves(&entry.seen, &entry.row),
        ends: true,
        makes: false,
        words: &[],
        sigs: &[],
        boxes: &[],
        fork: Deed::Leaves,
        worth,
    }
}

/// A row that goes on.
fn onwards_row<'a>(
    alloc: Global,
    bump: &'a Bump,
    numbers: &Numbers,
    entry: &Entry,
) -> Result<Row<'a>, AllocError>
    ensures { IfOk result (λ r. row_view r ≡ row_by_way (numbers_view numbers.now) (entry_view entry.now) onwards) }
{
    let to = &entry.row.to;
    let given = Given::First(
        site_at(numbers.sites, &entry.key),
        entry.row.given.as_slice(),
    );
    let fork = forks_opened(alloc, bump, numbers.shapes, &given, &to.forks)?;
    let worth = walker_worth(Values::First, &to.live);
    landing_row(alloc, bump, numbers, entry, &given, to, fork, worth)
}

/// A row that answers a fork.
fn answers_row<'a>(
    alloc: Global,
    bump: &'a Bump,
    numbers: &Numbers,
    entry: &Entry,
    second: &Second,
) -> Result<Row<'a>, AllocError>
    ensures { IfOk result (λ r. row_view r
        ≡ row_by_way (numbers_view numbers.now) (entry_view entry.now) (answers_fork (second_view second.now))) }
{
    let given = Given::Second(second.given.as_slice());
    let values = Values::Second(walker_operand(&entry.row.to.live));
    let fork = forks_answered(values, &second.to.forks);
    let worth = walker_worth(values, &second.to.live);
    landing_row(alloc, bump, numbers, entry, &given, &second.to, fork, worth)
}

/// The row of an entry.
fn module_row<'a>(
    alloc: Global,
    bump: &'a Bump,
    numbers: &Numbers,
    entry: &Entry,
) -> Result<Row<'a>, AllocError>
    ensures { IfOk result (λ r. row_view r ≡ module_row (numbers_view numbers.now) (entry_view entry.now)) }
{
    match &entry.row.way {
        Way::Onwards => onwards_row(alloc, bump, numbers, entry),
        Way::AnswersRun => {
            let worth = walker_worth(Values::First, &entry.row.to.live);
            Ok(ending_row(numbers, entry, worth))
        }
        Way::AnswersFork(second) => answers_row(alloc, bump, numbers, entry, second),
    }
}

/// Appends a row.
fn add_row<'a>(found: &mut Vec<Row<'a>>, row: &Row<'a>) -> Result<(), AllocError>
    ensures { OnOk result (map row_view found.new.items ≡ map row_view found.old.items ++ (row_view row.now ∷ [])) }
{
    found.push(*row)?;
    Ok(())
}

/// Appends the rows of entries.
fn add_rows<'a>(
    alloc: Global,
    bump: &'a Bump,
    found: &mut Vec<Row<'a>>,
    numbers: &Numbers,
    entries: &[Entry],
) -> Result<(), AllocError>
    ensures { OnOk result (map row_view found.new.items
        ≡ map row_view found.old.items ++ module_rows (numbers_view numbers.now) (entries_view entries.now)) }
{
    match entries {
        [] => Ok(()),
        [first, rest @ ..] => {
            let row = module_row(alloc, bump, numbers, first)?;
            add_row(found, &row)?;
            add_rows(alloc, bump, found, numbers, rest)
        }
    }
}

/// The rows of a table, with what is looked at at its keys. Their lists are in `bump`.
///
/// # Errors
///
/// `AllocError` where there is no memory for them.
pub fn module_rows<'a>(
    alloc: Global,
    bump: &'a Bump,
    sites: &[SiteAt],
    entries: &[Entry],
) -> Result<&'a [Row<'a>], AllocError>
    ensures { IfOk result (λ r. map row_view r.now
        ≡ module_rows (numbering (sites_view sites.now) (entries_view entries.now)) (entries_view entries.now)) }
{
    let mut shapes = Vec::new(alloc);
    add_shapes(&mut shapes, entries)?;
    let numbers = Numbers {
        entries,
        shapes: shapes.as_slice(),
        sites,
    };
    let mut found = Vec::new(alloc);
    add_rows(alloc, bump, &mut found, &numbers, entries)?;
    let kept = bump.try_alloc_slice_copy(found.as_slice())?;
    Ok(kept)
}
