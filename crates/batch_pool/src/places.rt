//! In which job each worker holds a ticket.

ghost use Rattle.std.specs.Prelude.{◌≡◌, ◌<◌, Some, None, length, set, slice_get};
ghost use Rattle.batch_pool.specs.Keeping.{places_after};

use crate::BatchTaken;

/// The job in which a worker holds a ticket.
pub(crate) fn place_of(places: &[Option<u32>], worker: u32) -> Option<u32>
    requires { worker < length places.now }
    ensures { slice_get places.now worker ≡ Some result }
{
    places[worker as usize]
}

/// A worker holds what it took.
pub(crate) fn remember(places: &mut Vec<Option<u32>>, worker: u32, taken: &BatchTaken)
    requires { worker < length places.old.items }
    ensures { places.new.items ≡ places_after taken.now places.old.items worker }
{
    if let BatchTaken::Token(job, _) = taken {
        places[worker as usize] = Some(*job);
    }
}

/// A worker holds nothing any more.
pub(crate) fn forget(places: &mut Vec<Option<u32>>, worker: u32)
    requires { worker < length places.old.items }
    ensures { places.new.items ≡ set places.old.items worker None }
{
    places[worker as usize] = None;
}
