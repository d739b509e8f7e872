//! The end that reads.

ghost use Rattle.std.specs.Prelude.{◌≡◌, ◌≤◌, ◌∷◌, [], IfOk};
ghost use Rattle.std.specs.Arc.{arc_value};
ghost use Rattle.crossbeam_utils.specs.Seq.{cell_view};
ghost use Rattle.progress_meter.specs.Meters.{first_listener, with_reading, RisesFromZero};
ghost use Rattle.progress_meter.specs.Last.{last_of};
ghost use Rattle.crossbeam_utils.specs.Register.{Turns};
ghost use Rattle.progress_meter.specs.Rule.{new_reader, Kept, Loaded};
ghost use Rattle.progress_meter.specs.declared.rule.View.TheVariants.{Reads};

use crate::rule::{Cell, End, Loads, SecondReader};
use std::alloc::{AllocError, Global};
use std::marker::Model;
use std::sync::{Arc, Wait};

/// A reader of a meter. Contracts see which meter it is of, and its readings, which begin with 0 and never go down.
#[derive(Drop)]
pub struct Reader {
    cell: Arc<Cell, Global>,
    end: End,
    last: u64,
}

impl Model for Reader {
    ghost use Rattle.std.specs.Prelude.{◌≡◌};
    ghost use Rattle.std.specs.Arc.{arc_value};
    ghost use Rattle.crossbeam_utils.specs.Seq.{cell_view};
    ghost use Rattle.progress_meter.specs.Meters.{Listener};
    ghost use Rattle.progress_meter.specs.Codes.{listener_code};
    ghost use Rattle.progress_meter.specs.Rule.{listener_of, Listens};

    ghost Value = { Listener };

    ghost coded = { listener_code };

    ghost view = { λ r. listener_of r.end.table_id (cell_view r.end) };

    ghost invariant = { λ r. (r.end.table_id ≡ (arc_value r.cell).table.shared.table_id) × Listens (cell_view r.end) r.last };
}

/// Loads the word where a reader may.
fn load<R: Wait>(rt: &R, cell: &Cell, end: &mut End) -> u64
    requires cell { end.old.table_id ≡ cell.now.table.shared.table_id }
    requires rule { Turns Kept end.old.id (cell_view end.old) (λ x. x) Loaded }
    ensures cell { end.new.table_id ≡ end.old.table_id }
    ensures loaded { Loaded (cell_view end.old) (result ∷ []) (result ∷ []) (cell_view end.new) }
{
    let [n] = cell.load_as::<Loads, R>(rt, end);
    n
}

impl Reader {
    /// A reader that has read nothing but 0.
    pub(crate) fn new(cell: Arc<Cell, Global>, end: End) -> Reader
        requires cell { end.table_id ≡ (arc_value cell).table.shared.table_id }
        requires view { cell_view end ≡ new_reader }
        ensures { result ≡ first_listener end.table_id }
    {
        Reader { cell, end, last: 0 }
    }

    /// The last reading. Takes no memory.
    pub fn last(&self) -> u64
        ensures last { result ≡ last_of self.now.readings }
        ensures rises { RisesFromZero self.now.readings }
    {
        self.last
    }

    /// Reads the number once, which isn't below the last reading, and adds it to the readings. It may wait for a number that is just
    /// being published. Takes no memory.
    pub fn read<R: Wait>(&mut self, rt: &R) -> u64
        ensures read { self.new ≡ with_reading self.old result }
        ensures last { last_of self.new.readings ≡ result }
        ensures not_below { last_of self.old.readings ≤ result }
        ensures rises { RisesFromZero self.new.readings }
    {
        let n = load(rt, &self.cell, &mut self.end);
        self.last = n;
        n
    }

    /// A second reader of the same meter, with the same readings. The first stays as it was, after want of memory too.
    ///
    /// # Errors
    ///
    /// It runs out of memory.
    pub fn another(&mut self) -> Result<Reader, AllocError>
        ensures same { self.new ≡ self.old }
        ensures second { IfOk result (λ r. r ≡ self.old) }
    {
        let cell = Arc::try_clone(&self.cell)?;
        let end = cell.split_pass::<SecondReader>(&mut self.end);
        Ok(Reader {
            cell,
            end,
            last: self.last,
        })
    }

    /// What it makes its steps with.
    pub(crate) fn into_end(self) -> End
        ensures meter { result.table_id ≡ self.meter }
        ensures view { cell_view result ≡ Reads self.readings }
    {
        let Reader {
            cell: _,
            end,
            last: _,
        } = self;
        end
    }
}
