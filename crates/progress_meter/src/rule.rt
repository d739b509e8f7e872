//! The word of a meter, what its ends know, and the steps that they make.

use atomic_table::{Join, Split};
use crossbeam_utils::atomic::seq_cell::{Pass, RuledSeqCell};
use crossbeam_utils::rule::{Outcome, Protocol};
use std::collections::LinkedList;

/// What one end of a meter knows. No value of it is made.
pub enum View {
    /// The writer knows what it published, and the readings of each reader that it settled.
    Publishes(LinkedList<u64>, LinkedList<LinkedList<u64>>),
    /// A reader knows its readings.
    Reads(LinkedList<u64>),
    /// Nothing: what was known here was joined into another view.
    Spent,
}

/// The rule of a meter: what was published begins with 0, never goes down and ends with the word, and all readings are of it.
pub struct Metered;

impl Protocol<[u64; 1], View> for Metered {
    ghost use Rattle.progress_meter.specs.Rule.{Kept, new_writer};

    ghost holds = { Kept };

    ghost first = { new_writer };
}

/// A reader loads the word.
pub struct Loads;

impl Outcome<[u64; 1], View> for Loads {
    ghost use Rattle.progress_meter.specs.Rule.{Loaded};

    ghost then = { Loaded };
}

/// The writer stores a number.
pub struct Stores;

impl Outcome<[u64; 1], View> for Stores {
    ghost use Rattle.progress_meter.specs.Rule.{Stored};

    ghost then = { Stored };
}

/// The writer loads the word, and learns what the rule says of all that it has.
pub struct Compares;

impl Outcome<[u64; 1], View> for Compares {
    ghost use Rattle.progress_meter.specs.Rule.{Compared};

    ghost then = { Compared };
}

/// The first reader of a meter comes from the writer.
pub struct FirstReader;

impl Split<View> for FirstReader {
    ghost use Rattle.progress_meter.specs.Rule.{new_reader};

    ghost left = { λ v. v };

    ghost right = { λ v. new_reader };
}

/// A second reader comes from a reader, with the same readings.
pub struct SecondReader;

impl Split<View> for SecondReader {
    ghost left = { λ v. v };

    ghost right = { λ v. v };
}

/// A reader's whole view moves to a new seat, since the seat that made its steps can't be joined.
pub struct WholeView;

impl Split<View> for WholeView {
    ghost use Rattle.progress_meter.specs.declared.rule.View.TheVariants.{Spent};

    ghost left = { λ v. Spent };

    ghost right = { λ v. v };
}

/// The writer takes a reader's readings in, beside what it published.
pub struct Settles;

impl Join<View> for Settles {
    ghost use Rattle.progress_meter.specs.declared.rule.View.TheVariants.{Spent};
    ghost use Rattle.progress_meter.specs.Rule.{with_readings};

    ghost both = { with_readings };

    ghost spent = { Spent };
}

/// The word that the ends of one meter share.
pub type Cell = RuledSeqCell<[u64; 1], View, Metered, 1>;

/// What an end makes its steps with.
pub type End = Pass<[u64; 1], View>;
