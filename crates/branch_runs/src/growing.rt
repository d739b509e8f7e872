//! One token's run by itself, turn by turn.

ghost use Rattle.std.specs.Prelude.{◌≡◌, ◌<◌, ◌≤◌, ◌+◌, ◌⊎◌, [], false, IfOk, OnOk, length};
ghost use Rattle.std.specs.Bool.{MatchBool};
ghost use Rattle.pcf_values.specs.Most.{most_budget};
ghost use Rattle.move_rules.specs.Places.{TokenTree};
ghost use Rattle.interleave_laws.specs.Runs.{Runs};
ghost use Rattle.interleave_core.specs.Newest.{IsNewestLive};
ghost use Rattle.interleave_core.specs.Owning.{StandsForeign};
ghost use Rattle.branch_laws.specs.Branches.{start_map_at};
ghost use Rattle.branch_laws.specs.Laws.{Occurs};
ghost use Rattle.branch_runs.specs.Branching.{Stops};
ghost use Rattle.branch_runs.specs.Growing.{HasGrown, GrowsOn, EndsTurn, WalksAlone, PlayedSo};

use interleave_core::{Core, Tickets};
use net_build::Net;
use std::alloc::AllocError;

/// The newest live ticket makes its solo moves, at most as many as are left of `most`; they are written down.
fn walk_on(
    core: &mut Core,
    log: &mut Tickets,
    net: &Net,
    ticket: u32,
    most: u32,
) -> Result<(), AllocError>
    requires runs { Runs net.now }
    requires few { most ≤ most_budget }
    requires room { length log.old ≤ most }
    requires grown { HasGrown net.now log.old core.old }
    requires newest { IsNewestLive core.old ticket }
    ensures grows { OnOk result (GrowsOn net.now log.old core.old log.new core.new) }
    ensures newest { OnOk result (IsNewestLive core.new ticket) }
    ensures longer { OnOk result (length log.old ≤ length log.new) }
    ensures within { OnOk result (length log.new ≤ most) }
{
    let made = core.walk(net, ticket, most - log.len())?;
    log.add(ticket, made)
}

/// The newest live ticket moves once, but by no answer and by no join whose entry isn't the branch's; then it answers `false`.
fn act_on(core: &mut Core, log: &mut Tickets, net: &Net, ticket: u32) -> Result<bool, AllocError>
    requires runs { Runs net.now }
    requires room { length log.old < most_budget }
    requires grown { HasGrown net.now log.old core.old }
    requires newest { IsNewestLive core.old ticket }
    ensures grows { OnOk result (GrowsOn net.now log.old core.old log.new core.new) }
    ensures goes { IfOk result (λ on. MatchBool on (length log.new ≡ length log.old + 1)
        ((log.new ≡ log.old) × (core.new ≡ core.old) × StandsForeign net.now core.old ticket)) }
{
    let moved = core.step_own(net, ticket)?;
    if moved {
        log.add(ticket, 1)?;
    }
    Ok(moved)
}

/// The newest live ticket makes its solo moves and then the move that isn't, as far as `most` goes. It answers whether the branch goes on.
fn go_on(
    core: &mut Core,
    log: &mut Tickets,
    net: &Net,
    ticket: u32,
    most: u32,
) -> Result<bool, AllocError>
    requires runs { Runs net.now }
    requires few { most ≤ most_budget }
    requires room { length log.old < most }
    requires grown { HasGrown net.now log.old core.old }
    requires newest { IsNewestLive core.old ticket }
    ensures grows { OnOk result (GrowsOn net.now log.old core.old log.new core.new) }
    ensures within { OnOk result (length log.new ≤ most) }
    ensures goes { IfOk result (λ on. MatchBool on (length log.old < length log.new) (EndsTurn net.now most log.new core.new)) }
{
    walk_on(core, log, net, ticket, most)?;
    if log.len() == most {
        return Ok(false);
    }
    act_on(core, log, net, ticket)
}

/// The turns of a branch, until so many moves are made or it goes no further.
fn grow(core: &mut Core, log: &mut Tickets, net: &Net, most: u32) -> Result<(), AllocError>
    requires runs { Runs net.now }
    requires few { most ≤ most_budget }
    requires room { length log.old ≤ most }
    requires grown { HasGrown net.now log.old core.old }
    ensures grows { OnOk result (GrowsOn net.now log.old core.old log.new core.new) }
    ensures within { OnOk result (length log.new ≤ most) }
    ensures ends { OnOk result ((length log.new ≡ most) ⊎ Stops net.now false core.new) }
{
    while log.len() < most {
        match core.newest_live() {
            Some(ticket) => {
                if !go_on(core, log, net, ticket, most)? {
                    break;
                }
            }
            None => break,
        }
    }
    Ok(())
}

/// The solo moves of the token alone, at most so many.
fn walk(core: &mut Core, log: &mut Tickets, net: &Net, most: u32) -> Result<(), AllocError>
    requires few { most ≤ most_budget }
    requires begins { (x : TokenTree) × (core.old ≡ start_map_at x) }
    requires empty { log.old ≡ [] }
    ensures { (x : TokenTree) → core.old ≡ start_map_at x → OnOk result (WalksAlone net.now x most log.new core.new) }
{
    let made = core.walk(net, 0, most)?;
    log.add(0, made)
}

/// Plays a token that is alone in its state, as far as `most` goes: by its solo moves alone where it is plain, and else by all moves of its
/// own.
pub(crate) fn play(
    core: &mut Core,
    log: &mut Tickets,
    net: &Net,
    most: u32,
    plain: bool,
) -> Result<(), AllocError>
    requires runs { Runs net.now }
    requires few { most ≤ most_budget }
    requires begins { (x : TokenTree) × Occurs net.now x × (core.old ≡ start_map_at x) }
    requires empty { log.old ≡ [] }
    ensures { (x : TokenTree) → Occurs net.now x → core.old ≡ start_map_at x →
        OnOk result (PlayedSo net.now x most plain log.new core.new) }
{
    if plain {
        walk(core, log, net, most)
    } else {
        grow(core, log, net, most)
    }
}
