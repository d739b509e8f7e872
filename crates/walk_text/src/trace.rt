//! The trace of a log.

ghost use Rattle.std.specs.Prelude.{◌≡◌, ◌≤◌, ◌-◌, ◌++◌, min, OnOk, length, take, drop};
ghost use Rattle.pcf_values.specs.Most.{most_moves};
ghost use Rattle.interleave_laws.specs.Runs.{Runs};
ghost use Rattle.interleave_laws.specs.Maps.{LeadsToMap};
ghost use Rattle.schedule_log.specs.KeptRuns.{Each, spread};
ghost use Rattle.schedule_log.specs.Logs.{tickets_in_log};
ghost use Rattle.walk_text.specs.Standing.{StandsAt};
ghost use Rattle.walk_text.specs.Traces.{window_text, trace_text};
ghost use Rattle.walk_text.specs.Whole.{LeadsSomewhere};

use crate::head::push_head;
use crate::moves::{push_moves, run_to};
use crate::place::Place;
use interleave_core::Core;
use net_build::Net;
use schedule_log::{Log, Moves};
use std::alloc::{AllocError, Global};

/// Appends the trace of a log on this net, from entry `from` on, counted from 0, of at most `most` moves: the tokens that are live and the
/// entries that are open there, a line for each move, and `end`. Behind the end of the log it shows the state to which the log leads.
///
/// The entries before `from` are run and not told. A move that is told is made for itself, and costs its step and its line. Besides
/// the text and one state, it takes no memory that grows with the log.
///
/// # Errors
///
/// It runs out of memory; what is appended by then says nothing.
pub fn push_trace(
    alloc: Global,
    text: &mut Vec<u8>,
    net: &Net,
    log: &Log,
    from: u32,
    most: u32,
) -> Result<(), AllocError>
    requires runs { Runs net.now }
    requires leads { LeadsSomewhere net.now log.now.entries }
    requires few { length log.now.entries ≤ most_moves }
    ensures { OnOk result (text.new.items ≡ text.old.items ++ trace_text net.now log.now.entries from most) }
{
    let runs = log.runs();
    let len = log.len() as usize;
    let begin = least(from as usize, len);
    let end = begin + least(most as usize, len - begin);
    let mut core = Core::start(alloc, net)?;
    let at = run_to(&mut core, net, runs, begin)?;
    text.extend_from_slice(b"trace 1\n")?;
    push_window(alloc, text, &mut core, net, runs, at, begin, end)?;
    text.extend_from_slice(b"end\n")
}

/// The lesser of two numbers.
fn least(a: usize, b: usize) -> usize
    ensures { result ≡ min a b }
{
    if a < b { a } else { b }
}

/// Appends what is told from one place of a log to another.
fn push_window(
    alloc: Global,
    text: &mut Vec<u8>,
    core: &mut Core,
    net: &Net,
    runs: &[Moves],
    at: Place,
    from: usize,
    to: usize,
) -> Result<(), AllocError>
    requires runs { Runs net.now }
    requires each { Each runs.now }
    requires leads { LeadsSomewhere net.now (spread runs.now) }
    requires few { length (spread runs.now) ≤ most_moves }
    requires order { from ≤ to }
    requires within { to ≤ length (spread runs.now) }
    requires stands { StandsAt runs.now at.run at.begins from }
    requires led { LeadsToMap net.now (tickets_in_log (take from (spread runs.now))) core.old }
    ensures { OnOk result (text.new.items ≡ text.old.items
        ++ window_text net.now core.old from (take (to - from) (drop from (spread runs.now)))) }
{
    push_head(alloc, text, core)?;
    push_moves(alloc, text, core, net, runs, at, from, to)
}
