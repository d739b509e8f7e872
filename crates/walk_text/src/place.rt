//! Where a move stands in the runs of a log.

ghost use Rattle.std.specs.Prelude.{◌≡◌, ◌+◌, ◌<◌, ◌≤◌, get_or, length};
ghost use Rattle.schedule_log.specs.KeptRuns.{Each, spread};
ghost use Rattle.pcf_values.specs.Most.{most_moves};
ghost use Rattle.walk_text.specs.Standing.{StandsAt};

use schedule_log::{Entry, Moves};

/// The run of a move, from 0, and the place at which that run begins.
#[derive(Clone, Copy)]
pub(crate) struct Place {
    pub(crate) run: usize,
    pub(crate) begins: usize,
}

/// Where the first move stands.
pub(crate) fn first_place(runs: &[Moves]) -> Place
    requires { Each runs.now }
    ensures { StandsAt runs.now result.run result.begins 0 }
{
    Place { run: 0, begins: 0 }
}

/// The move that stands there.
pub(crate) fn move_at(runs: &[Moves], place: Place, i: usize) -> Entry
    requires inside { i < length (spread runs.now) }
    requires stands { StandsAt runs.now place.run place.begins i }
    ensures { result ≡ get_or (spread runs.now) i result }
{
    let run = runs[place.run];
    Entry {
        ticket: run.ticket(),
        worker: run.worker(),
    }
}

/// Where the move behind it stands.
pub(crate) fn next_place(runs: &[Moves], place: Place, i: usize) -> Place
    requires each { Each runs.now }
    requires few { length (spread runs.now) ≤ most_moves }
    requires inside { i < length (spread runs.now) }
    requires stands { StandsAt runs.now place.run place.begins i }
    ensures { StandsAt runs.now result.run result.begins (i + 1) }
{
    let end = place.begins + runs[place.run].count() as usize;
    if i + 1 < end {
        return place;
    }
    Place {
        run: place.run + 1,
        begins: end,
    }
}
