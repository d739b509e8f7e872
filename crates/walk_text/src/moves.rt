//! The moves of a log: those that are run, and those that are told.

ghost use Rattle.std.specs.Prelude.{◌≡◌, ◌≤◌, ◌-◌, ◌++◌, OnOk, IfOk, length, take, drop};
ghost use Rattle.std.specs.List.{concat};
ghost use Rattle.pcf_values.specs.Most.{most_moves};
ghost use Rattle.interleave_laws.specs.Runs.{Runs};
ghost use Rattle.interleave_laws.specs.Maps.{LeadsToMap, seen, start_map};
ghost use Rattle.interleave_laws.specs.Start.{start_of};
ghost use Rattle.schedule_log.specs.KeptRuns.{Each, spread};
ghost use Rattle.schedule_log.specs.Logs.{tickets_in_log};
ghost use Rattle.walk_text.specs.Standing.{StandsAt};
ghost use Rattle.walk_text.specs.Traces.{lines_from};
ghost use Rattle.walk_text.specs.Whole.{LeadsSomewhere};

use crate::line::{Shown, push_move};
use crate::place::{Place, first_place, move_at, next_place};
use interleave_core::Core;
use net_build::Net;
use schedule_log::Moves;
use std::alloc::{AllocError, Global};

/// Makes the first moves of a log, from the start of the run, and answers where the next one stands.
pub(crate) fn run_to(
    core: &mut Core,
    net: &Net,
    runs: &[Moves],
    from: usize,
) -> Result<Place, AllocError>
    requires runs { Runs net.now }
    requires each { Each runs.now }
    requires leads { LeadsSomewhere net.now (spread runs.now) }
    requires few { length (spread runs.now) ≤ most_moves }
    requires within { from ≤ length (spread runs.now) }
    requires start { core.old ≡ start_map (start_of net.now) }
    ensures led { OnOk result (LeadsToMap net.now (tickets_in_log (take from (spread runs.now))) core.new) }
    ensures stands { IfOk result (λ p. StandsAt runs.now p.run p.begins from) }
{
    let mut place = first_place(runs);
    for i in 0..from {
        let entry = move_at(runs, place, i);
        core.step(net, entry.ticket)?;
        place = next_place(runs, place, i);
    }
    Ok(place)
}

/// Makes the moves of a log from one place to another, and appends their lines. The first of them stands at `at`.
pub(crate) fn push_moves(
    alloc: Global,
    text: &mut Vec<u8>,
    core: &mut Core,
    net: &Net,
    runs: &[Moves],
    at: Place,
    from: usize,
    to: usize,
) -> Result<(), AllocError>
    requires runs { Runs net.now }
    requires each { Each runs.now }
    requires leads { LeadsSomewhere net.now (spread runs.now) }
    requires few { length (spread runs.now) ≤ most_moves }
    requires order { from ≤ to }
    requires within { to ≤ length (spread runs.now) }
    requires stands { StandsAt runs.now at.run at.begins from }
    requires led { LeadsToMap net.now (tickets_in_log (take from (spread runs.now))) core.old }
    ensures { OnOk result (text.new.items ≡ text.old.items
        ++ concat (lines_from net.now (seen core.old) from (take (to - from) (drop from (spread runs.now))))) }
{
    let mut shown = Shown {
        text: Vec::new(alloc),
        ticket: None,
    };
    let mut place = at;
    for i in from..to {
        let entry = move_at(runs, place, i);
        push_move(alloc, text, &mut shown, core, net, i as u32, entry)?;
        place = next_place(runs, place, i);
    }
    Ok(())
}
