//! The end that publishes.

ghost use Rattle.std.specs.Prelude.{◌≡◌, ◌≤◌, ◌∷◌, [], IfOk};
ghost use Rattle.crossbeam_utils.specs.Seq.{cell_view};
ghost use Rattle.crossbeam_utils.specs.Register.{Turns};
ghost use Rattle.progress_meter.specs.Rule.{Compared, IsReader, IsWriter, Kept, Stored, with_readings};
ghost use Rattle.progress_meter.specs.Meters.{first_publisher, first_listener, with_number, with_settled, AreReadingsOf, Faithful};
ghost use Rattle.progress_meter.specs.Last.{last_of};

use crate::Reader;
use crate::rule::{Cell, Compares, End, FirstReader, Settles, Stores, WholeView};
use std::alloc::{AllocError, Global};
use std::marker::Model;
use std::sync::{Arc, Wait};

/// The one writer of a meter. Contracts see which meter it is of, what it published, and the readings of each reader that it settled; every
/// writer is faithful.
#[derive(Drop)]
pub struct Writer {
    cell: Arc<Cell, Global>,
    end: End,
    last: u64,
}

impl Model for Writer {
    ghost use Rattle.std.specs.Prelude.{◌≡◌};
    ghost use Rattle.std.specs.Arc.{arc_value};
    ghost use Rattle.crossbeam_utils.specs.Seq.{cell_view};
    ghost use Rattle.progress_meter.specs.Meters.{Publisher};
    ghost use Rattle.progress_meter.specs.Codes.{publisher_code};
    ghost use Rattle.progress_meter.specs.Rule.{publisher_of, Writes};

    ghost Value = { Publisher };

    ghost coded = { publisher_code };

    ghost view = { λ w. publisher_of w.end.table_id (cell_view w.end) };

    ghost invariant = { λ w. (w.end.table_id ≡ (arc_value w.cell).table.shared.table_id) × Writes (cell_view w.end) w.last };
}

/// Both ends of a new meter, on which 0 is published.
///
/// # Errors
///
/// It runs out of memory.
pub fn meter(alloc: Global) -> Result<(Writer, Reader), AllocError>
    ensures writer { IfOk result (λ m. m.0 ≡ first_publisher m.0.meter) }
    ensures reader { IfOk result (λ m. m.1 ≡ first_listener m.0.meter) }
{
    let (cell, mut end) = Cell::ruled(alloc, [0])?;
    let cell = Arc::new(alloc, cell)?;
    let shared = Arc::try_clone(&cell)?;
    let first = shared.split_pass::<FirstReader>(&mut end);
    let reader = Reader::new(shared, first);
    let writer = Writer { cell, end, last: 0 };
    Ok((writer, reader))
}

/// Stores a number where that keeps the rule.
fn store<R: Wait>(rt: &R, cell: &Cell, end: &mut End, n: u64)
    requires cell { end.old.table_id ≡ cell.now.table.shared.table_id }
    requires rule { Turns Kept end.old.id (cell_view end.old) (λ _. n ∷ []) Stored }
    ensures cell { end.new.table_id ≡ end.old.table_id }
    ensures stored { Stored (cell_view end.old) [] (n ∷ []) (cell_view end.new) }
{
    cell.swap_as::<Stores, R>(rt, end, [n]);
}

/// Puts a reader's view beside the writer's: it moves to a new seat first, since the seat that made its steps can't be joined.
fn take_in(cell: &Cell, end: &mut End, mut readings: End)
    requires cell { (end.old.table_id ≡ cell.now.table.shared.table_id) × (readings.table_id ≡ end.old.table_id) }
    requires views { IsWriter (cell_view end.old) × IsReader (cell_view readings) }
    ensures cell { end.new.table_id ≡ end.old.table_id }
    ensures joined { cell_view end.new ≡ with_readings (cell_view end.old) (cell_view readings) }
{
    let whole = cell.split_pass::<WholeView>(&mut readings);
    cell.join_pass::<Settles>(end, whole);
}

/// Loads the word as the writer, which learns what the rule says of all that it has.
fn compare<R: Wait>(rt: &R, cell: &Cell, end: &mut End)
    requires cell { end.old.table_id ≡ cell.now.table.shared.table_id }
    requires rule { Turns Kept end.old.id (cell_view end.old) (λ x. x) Compared }
    ensures cell { end.new.table_id ≡ end.old.table_id }
    ensures compared { Compared (cell_view end.old) [] [] (cell_view end.new) }
{
    cell.load_as::<Compares, R>(rt, end);
}

impl Writer {
    /// The number published last. Takes no memory.
    pub fn last(&self) -> u64
        ensures last { result ≡ last_of self.now.published }
        ensures faithful { Faithful self.now }
    {
        self.last
    }

    /// Publishes a number that isn't below the last one. It may wait for a reader that just reads. Takes no memory.
    pub fn publish<R: Wait>(&mut self, rt: &R, n: u64)
        requires { last_of self.old.published ≤ n }
        ensures published { self.new ≡ with_number self.old n }
        ensures last { last_of self.new.published ≡ n }
    {
        store(rt, &self.cell, &mut self.end, n);
        self.last = n;
    }

    /// Takes in a reader of this meter, and learns of its readings: they never went down, and each was published. It may wait for another
    /// reader that just reads. Takes no memory.
    pub fn settle<R: Wait>(&mut self, rt: &R, reader: Reader)
        requires { reader.meter ≡ self.old.meter }
        ensures settled { self.new ≡ with_settled self.old reader.readings }
        ensures readings { AreReadingsOf self.old.published reader.readings }
        ensures faithful { Faithful self.new }
    {
        let readings = reader.into_end();
        take_in(&self.cell, &mut self.end, readings);
        compare(rt, &self.cell, &mut self.end);
    }
}
