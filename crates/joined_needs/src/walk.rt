//! Where a run is.

use joined_data::{Row, Site};
use pcf_values::Val;

/// A pointer.
#[derive(Clone, Copy)]
pub(crate) struct Pointer {
    /// Its shape's tag.
    pub(crate) tag: u64,
    /// Its cell's place.
    pub(crate) place: u64,
}

/// An open fork.
#[derive(Drop)]
pub(crate) struct Open {
    /// Its boxes.
    pub(crate) boxes: Vec<Pointer>,
    /// Its left answer, once that came.
    pub(crate) answered: Option<Val>,
    /// The cells that were in use when it was opened.
    pub(crate) top: u64,
}

/// What the registers and memories of a circuit have.
#[derive(Drop)]
pub(crate) struct Held {
    /// Where the token is.
    pub(crate) key: u64,
    /// What is looked at there.
    pub(crate) site: Site,
    /// The value of the last answer.
    pub(crate) value: Val,
    /// The signatures.
    pub(crate) sigs: Vec<Pointer>,
    /// The boxes.
    pub(crate) boxes: Vec<Pointer>,
    /// The words of each cell that was made, also of those that were given back.
    pub(crate) cells: Vec<Vec<Pointer>>,
    /// How many cells are in use.
    pub(crate) top: u64,
    /// The open forks, the innermost last.
    pub(crate) forks: Vec<Open>,
    /// The run has ended.
    pub(crate) ended: bool,
    /// There was no row.
    pub(crate) full: bool,
    /// The moves that were made.
    pub(crate) moves: u128,
}

/// That with the row that is made next, and what it waits for.
#[derive(Drop)]
pub(crate) struct Walk<'a> {
    /// What the circuit has.
    pub(crate) held: Held,
    /// The row that is made next, if there is one.
    pub(crate) row: Option<Row<'a>>,
    /// The edges until the value is there.
    pub(crate) late: u64,
    /// The cell that is looked at was read.
    pub(crate) seen: bool,
    /// A fork was written at the last edge.
    pub(crate) fresh: bool,
    /// The value was.
    pub(crate) changed: bool,
    /// The run has ended, and the value was told.
    pub(crate) done: bool,
}
