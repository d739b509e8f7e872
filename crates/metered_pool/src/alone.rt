//! The run of one worker, whose moves others can count while it makes them.

ghost use Rattle.std.specs.Prelude.{◌≡◌, ◌≤◌, ◌<◌, ◌⊎◌, IfOk, OnOk, length};
ghost use Rattle.pcf_values.specs.Most.{most_budget};
ghost use Rattle.interleave_laws.specs.Runs.{Runs};
ghost use Rattle.interleave_laws.specs.Start.{start_of};
ghost use Rattle.interleave_laws.specs.Maps.{start_map};
ghost use Rattle.interleave_laws.specs.Tickets.{IsLeastLive, NoneLive};
ghost use Rattle.schedule_log.specs.LogsSeen.{empty_log};
ghost use Rattle.progress_meter.specs.Meters.{with_number};
ghost use Rattle.progress_meter.specs.Last.{last_of};
ghost use Rattle.metered_pool.specs.Walking.{Walked, WalksAlone};

use interleave_core::Core;
use interleave_laws::{law_maps, law_one_worker};
use net_build::Net;
use progress_meter::Writer;
use schedule_log::Log;
use std::alloc::{AllocError, Global};
use std::sync::Wait;
use token_pool::Ended;

/// After so many moves, and at the end, the number of moves is published.
const STRETCH: u32 = 1024;

/// The least live ticket makes its solo moves, and then the move that isn't one, as far as `end` moves in all allow. Each is written down.
fn move_least(
    core: &mut Core,
    net: &Net,
    log: &mut Log,
    ticket: u32,
    end: u32,
) -> Result<(), AllocError>
    requires runs { Runs net.now }
    requires small { end ≤ most_budget }
    requires below { length log.old.entries < end }
    requires room { end ≤ log.old.room }
    requires walked { Walked net.now log.old.entries core.old }
    requires least { IsLeastLive core.old ticket }
    ensures walked { OnOk result (Walked net.now log.new.entries core.new) }
    ensures more { OnOk result (length log.old.entries < length log.new.entries) }
    ensures within { OnOk result (length log.new.entries ≤ end) }
    ensures room { OnOk result (log.new.room ≡ log.old.room) }
{
    let left = end - log.len();
    let made = core.walk(net, ticket, left)?;
    log.push_many(ticket, 0, made);
    if made < left {
        core.step(net, ticket)?;
        log.push(ticket, 0);
    }
    Ok(())
}

/// The least live ticket moves, until there are `end` moves in all or no ticket is live.
fn move_on(core: &mut Core, net: &Net, log: &mut Log, end: u32) -> Result<(), AllocError>
    requires runs { Runs net.now }
    requires small { end ≤ most_budget }
    requires within { length log.old.entries ≤ end }
    requires room { end ≤ log.old.room }
    requires walked { Walked net.now log.old.entries core.old }
    ensures walked { OnOk result (Walked net.now log.new.entries core.new) }
    ensures more { OnOk result (length log.old.entries ≤ length log.new.entries) }
    ensures within { OnOk result (length log.new.entries ≤ end) }
    ensures over { OnOk result ((length log.new.entries < end → ⊥) ⊎ NoneLive core.new) }
    ensures room { OnOk result (log.new.room ≡ log.old.room) }
{
    while log.len() < end {
        match core.least_live() {
            Some(ticket) => move_least(core, net, log, ticket, end)?,
            None => break,
        }
    }
    Ok(())
}

/// Publishes how many moves were made.
fn tell<R: Wait>(rt: &R, log: &Log, writer: &mut Writer)
    requires { last_of writer.old.published ≤ length log.now.entries }
    ensures published { writer.new ≡ with_number writer.old (length log.now.entries) }
    ensures last { last_of writer.new.published ≡ length log.now.entries }
{
    writer.publish(rt, u64::from(log.len()));
}

/// How many moves there are to be at the end of the next stretch.
fn next_end(done: u32, budget: u32) -> u32
    requires { done < budget }
    ensures more { done < result }
    ensures within { result ≤ budget }
{
    if budget - done < STRETCH {
        budget
    } else {
        done + STRETCH
    }
}

/// One stretch of the run, and how many moves there are then is published.
fn stretch<R: Wait>(
    rt: &R,
    core: &mut Core,
    net: &Net,
    log: &mut Log,
    end: u32,
    writer: &mut Writer,
) -> Result<(), AllocError>
    requires runs { Runs net.now }
    requires small { end ≤ most_budget }
    requires within { length log.old.entries ≤ end }
    requires room { end ≤ log.old.room }
    requires walked { Walked net.now log.old.entries core.old }
    requires level { last_of writer.old.published ≡ length log.old.entries }
    ensures walked { OnOk result (Walked net.now log.new.entries core.new) }
    ensures within { OnOk result (length log.new.entries ≤ end) }
    ensures over { OnOk result ((length log.new.entries < end → ⊥) ⊎ NoneLive core.new) }
    ensures room { OnOk result (log.new.room ≡ log.old.room) }
    ensures level { OnOk result (last_of writer.new.published ≡ length log.new.entries) }
    ensures meter { OnOk result (writer.new.meter ≡ writer.old.meter) }
{
    move_on(core, net, log, end)?;
    tell(rt, log, writer);
    Ok(())
}

/// The whole run, stretch by stretch.
fn walk<R: Wait>(
    rt: &R,
    core: &mut Core,
    net: &Net,
    log: &mut Log,
    budget: u32,
    writer: &mut Writer,
) -> Result<(), AllocError>
    requires runs { Runs net.now }
    requires small { budget ≤ most_budget }
    requires within { length log.old.entries ≤ budget }
    requires room { budget ≤ log.old.room }
    requires walked { Walked net.now log.old.entries core.old }
    requires level { last_of writer.old.published ≡ length log.old.entries }
    ensures walked { OnOk result (Walked net.now log.new.entries core.new) }
    ensures within { OnOk result (length log.new.entries ≤ budget) }
    ensures over { OnOk result ((length log.new.entries < budget → ⊥) ⊎ NoneLive core.new) }
    ensures level { OnOk result (last_of writer.new.published ≡ length log.new.entries) }
    ensures meter { OnOk result (writer.new.meter ≡ writer.old.meter) }
{
    while log.len() < budget {
        let end = next_end(log.len(), budget);
        stretch(rt, core, net, log, end, writer)?;
        if log.len() < end {
            break;
        }
    }
    Ok(())
}

/// The machine's state at the start of a run of this net, and a log with room for all its moves.
fn begin(alloc: Global, net: &Net, budget: u32) -> Result<(Core, Log), AllocError>
    ensures core { IfOk result (λ p. p.0 ≡ start_map (start_of net.now)) }
    ensures log { IfOk result (λ p. p.1 ≡ empty_log budget) }
{
    let core = Core::start(alloc, net)?;
    let log = Log::with_room(alloc, budget)?;
    Ok((core, log))
}

/// The run of one worker within a budget of moves, as `run_alone` answers it, and the writer that published its moves on the way: after
/// each stretch of them, and at the end. Memory for the whole log is taken when the run begins.
pub(crate) fn walk_alone<R: Wait>(
    rt: &R,
    alloc: Global,
    net: &Net,
    budget: u32,
    mut writer: Writer,
) -> Result<(Ended, Writer), AllocError>
    requires runs { Runs net.now }
    requires budget { (1 ≤ budget) × (budget ≤ most_budget) }
    requires level { last_of writer.published ≡ 0 }
    ensures { IfOk result (λ r. WalksAlone net.now budget writer r.0 r.1) }
{
    law_one_worker();
    law_maps();
    let (mut core, mut log) = begin(alloc, net, budget)?;
    let walked = walk(rt, &mut core, net, &mut log, budget, &mut writer);
    let answer = core.answer();
    drop(core);
    walked?;
    Ok((Ended { answer, log }, writer))
}
