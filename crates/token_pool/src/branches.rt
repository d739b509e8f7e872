//! Branches of a held ticket that are handed out and booked.

ghost use Rattle.std.specs.Prelude.{◌≡◌, ◌<◌, ◌≤◌, ◌↔◌, ◌+◌, ◌-◌, ◌^◌, ℕ, [], true, All, map, length, replicate};
ghost use Rattle.std.specs.Prelude.{IfOk, IfSome, IfNone, OnErr, IsTrue, Some};
ghost use Rattle.std.specs.FinMap.{get};
ghost use Rattle.std.specs.Option.{MatchOption};
ghost use Rattle.pcf_values.specs.Most.{most_budget};
ghost use Rattle.interleave_laws.specs.Runs.{Runs};
ghost use Rattle.interleave_laws.specs.Tickets.{IsLive};
ghost use Rattle.interleave_laws.specs.Maps.{step_map, run_map};
ghost use Rattle.interleave_laws.specs.MapRuns.{IsReachedWithin};
ghost use Rattle.interleave_core.specs.Names.{step_name, MayTake};
ghost use Rattle.schedule_log.specs.Logs.{by};
ghost use Rattle.schedule_log.specs.LogsSeen.{with_entries};
ghost use Rattle.branch_laws.specs.Branches.{name};
ghost use Rattle.branch_runs.specs.Branching.{IsBranch, Taken};
ghost use Rattle.token_pool.specs.Branches.{words_in, branch_allowance, last_by, free_or, own_first, TakesOver, BranchMoves, StopsAt};
ghost use Rattle.token_pool.specs.Branches.{HasRoom, made_tickets, all_made};

use crate::Held;
use crate::places::Places;
use branch_runs::{Branch, OnNet, graft, name_of};
use interleave_core::{Core, Run, Tickets};
use net_build::Net;
use schedule_log::Log;
use std::alloc::AllocError;

/// How many words the stacks of a ticket's token have, and 0 where it has none. Takes no memory.
pub(crate) fn words_at(core: &Core, ticket: u32) -> usize
    ensures { result ≡ words_in (get core.now.tokens ticket) }
{
    match core.token(ticket) {
        Some(token) => token.stacks.work_words().len() + token.stacks.box_words().len(),
        None => 0,
    }
}

/// What is set aside for a branch.
pub(crate) fn branch_part(left: u32, workers: u32, live: u32, words: usize) -> u32
    requires { 1 ≤ workers }
    ensures { result ≡ branch_allowance left workers live words }
{
    if live == 1 {
        return left;
    }
    let part = (left / workers).max(1).min(8192);
    if words < left as usize {
        part.max(words as u32)
    } else {
        part.max(left)
    }
}

/// The ticket that moved last, if this worker made the move. Takes no memory.
fn last_by(log: &Log, worker: u32) -> Option<u32>
    ensures { result ≡ last_by worker log.now.entries }
{
    let runs = log.runs();
    let count = runs.len();
    if count == 0 {
        return None;
    }
    let last = runs[count - 1];
    if last.worker() == worker {
        Some(last.ticket())
    } else {
        None
    }
}

/// The ticket, if it is free, and else another. Takes no memory.
fn free_or(core: &Core, places: &Places, other: u32, ticket: u32) -> u32
    ensures { result ≡ free_or core.now places.now other ticket }
{
    if core.is_live(ticket) && !places.holds(ticket) {
        ticket
    } else {
        other
    }
}

/// Which of the free tickets a worker is given, where this is the least one: with two workers or more, and if it made the last move, the
/// one that was given out last, or the one that it moved. Takes no memory.
pub(crate) fn own_first(
    core: &Core,
    places: &Places,
    log: &Log,
    workers: u32,
    worker: u32,
    least: u32,
) -> u32
    ensures { result ≡ own_first core.now places.now log.now.entries workers worker least }
{
    if workers < 2 {
        return least;
    }
    match last_by(log, worker) {
        Some(own) => {
            let next = free_or(core, places, least, own);
            free_or(core, places, next, core.next_ticket().saturating_sub(1))
        }
        None => least,
    }
}

/// Whether a branch of the held ticket's token would be taken over.
fn fits<N: OnNet>(held: Held, workers: u32, branch: &Branch<N>) -> bool
    ensures fits { IsTrue result ↔ ((1 ≤ length branch.now.log) × (length branch.now.log ≤ held.allowance) ×
        (workers ≡ 1 → branch.now.plain ≡ true)) }
{
    let count = branch.len();
    count >= 1 && count <= held.allowance && (workers != 1 || branch.is_plain())
}

/// Grafts a branch that is taken over, and answers its own tickets; else all stays.
fn take_over<N: OnNet>(
    core: &mut Core,
    held: Held,
    workers: u32,
    branch: Branch<N>,
) -> Result<Option<Tickets>, AllocError>
    requires runs { Runs N.net }
    requires reached { IsReachedWithin N.net most_budget core.old }
    requires small { held.allowance ≤ most_budget }
    ensures taken { IfOk result (λ r. MatchOption r ((TakesOver core.old workers held branch → ⊥) × (core.new ≡ core.old))
        (λ tickets. TakesOver core.old workers held branch × Taken N.net core.old held.ticket branch core.new tickets)) }
    ensures err { OnErr result (core.new ≡ core.old) }
{
    if !fits(held, workers, &branch) {
        return Ok(None);
    }
    graft(core, held.ticket, branch)
}

/// The ticket before whose move a branch stopped, as it is called in the pool's state, where the allowance has one move more and there
/// are two workers or more. Takes no memory.
fn stop_of<N: OnNet>(branch: &Branch<N>, held: Held, workers: u32, next: u32) -> Option<u32>
    requires runs { Runs N.net }
    requires branch { IsBranch N.net branch.now }
    requires room { next + held.allowance < 2 ^ 32 }
    ensures { MatchOption result ((i : ℕ) → StopsAt held next workers branch.now i → ⊥) (StopsAt held next workers branch.now) }
{
    if workers < 2 || branch.len() >= held.allowance {
        return None;
    }
    match branch.after().newest_live() {
        Some(own) => Some(name_of(held.ticket, next, own)),
        None => None,
    }
}

/// Makes the step of this ticket, if there is one and there is memory for the step, and answers the ticket; else all stays.
fn step_behind(core: &mut Core, net: &Net, stop: Option<u32>) -> Option<u32>
    requires runs { Runs net.now }
    requires reached { IfSome stop (λ i. IsReachedWithin net.now most_budget core.old) }
    requires live { IfSome stop (IsLive core.old) }
    ensures some { IfSome result (λ i. (stop ≡ Some i) × (step_map net.now core.old i ≡ Some core.new)) }
    ensures none { IfNone result ((core.new ≡ core.old) × IfSome stop (λ i. MayTake (step_name net.now core.old i))) }
{
    match stop {
        Some(ticket) => {
            if core.step(net, ticket).is_ok() {
                Some(ticket)
            } else {
                None
            }
        }
        None => None,
    }
}

/// What was made of a branch: its own tickets, where it was taken over, and the ticket of the step behind them, where one was made.
pub(crate) struct Made {
    pub(crate) own: Option<Tickets>,
    pub(crate) last: Option<u32>,
}

/// Makes the moves of a branch, where it is taken over, and the step before which it stopped, where the allowance has one more; else one
/// step of the held ticket. After want of memory all is as before.
pub(crate) fn play_branch<N: OnNet>(
    core: &mut Core,
    net: &Net,
    held: Held,
    workers: u32,
    branch: Branch<N>,
) -> Result<Made, AllocError>
    requires runs { Runs net.now }
    requires named { net.now ≡ N.net }
    requires live { IsLive core.old held.ticket }
    requires room { HasRoom net.now core.old held.allowance }
    requires allowed { 1 ≤ held.allowance }
    ensures moves { IfOk result (λ m. BranchMoves net.now core.old workers held branch (all_made held.ticket core.old.next m.own m.last)) }
    ensures few { IfOk result (λ m. length (all_made held.ticket core.old.next m.own m.last) ≤ held.allowance) }
    ensures steps { IfOk result (λ m. run_map net.now core.old (all_made held.ticket core.old.next m.own m.last) ≡ Some core.new) }
    ensures fit { IfOk result (λ m. IfSome m.own (All (λ k. core.old.next + (k - 1) < 2 ^ 32))) }
    ensures err { OnErr result (core.new ≡ core.old) }
{
    let next = core.next_ticket();
    let stop = stop_of(&branch, held, workers, next);
    match take_over(core, held, workers, branch)? {
        Some(tickets) => {
            let last = step_behind(core, net, stop);
            Ok(Made {
                own: Some(tickets),
                last,
            })
        }
        None => {
            core.step(net, held.ticket)?;
            Ok(Made {
                own: None,
                last: None,
            })
        }
    }
}

/// Writes down so many moves of one of a branch's own tickets.
fn write_run(log: &mut Log, ticket: u32, next: u32, worker: u32, run: Run)
    requires worker { worker < 256 }
    requires room { length log.old.entries + run.count ≤ log.old.room }
    requires fit { 1 ≤ run.count → next + (run.ticket - 1) < 2 ^ 32 }
    ensures { log.new ≡ with_entries log.old (by worker (map (name ticket next) (replicate run.count run.ticket))) }
{
    if run.count > 0 {
        log.push_many(name_of(ticket, next, run.ticket), worker, run.count);
    }
}

/// Writes down the moves of a branch.
fn write_branch(log: &mut Log, ticket: u32, next: u32, worker: u32, tickets: &Tickets)
    requires worker { worker < 256 }
    requires room { length log.old.entries + length tickets.now ≤ log.old.room }
    requires fit { All (λ k. next + (k - 1) < 2 ^ 32) tickets.now }
    ensures { log.new ≡ with_entries log.old (by worker (map (name ticket next) tickets.now)) }
{
    let mut left = tickets.runs();
    while let [first, rest @ ..] = left {
        write_run(log, ticket, next, worker, *first);
        left = rest;
    }
}

/// Writes down what was made of a branch, where there is room. Takes no memory.
fn write_own(log: &mut Log, ticket: u32, next: u32, worker: u32, own: Option<Tickets>)
    requires worker { worker < 256 }
    requires room { length log.old.entries + length (made_tickets ticket next own) ≤ log.old.room }
    requires fit { IfSome own (All (λ k. next + (k - 1) < 2 ^ 32)) }
    ensures { log.new ≡ with_entries log.old (by worker (made_tickets ticket next own)) }
{
    match own {
        Some(tickets) => write_branch(log, ticket, next, worker, &tickets),
        None => log.push(ticket, worker),
    }
}

/// Writes down what was made of a branch, and the step behind it. Takes no memory.
pub(crate) fn write_made(log: &mut Log, ticket: u32, next: u32, worker: u32, made: Made)
    requires worker { worker < 256 }
    requires room { length log.old.entries + length (all_made ticket next made.own made.last) ≤ log.old.room }
    requires fit { IfSome made.own (All (λ k. next + (k - 1) < 2 ^ 32)) }
    ensures { log.new ≡ with_entries log.old (by worker (all_made ticket next made.own made.last)) }
{
    let Made { own, last } = made;
    write_own(log, ticket, next, worker, own);
    if let Some(ticket) = last {
        log.push(ticket, worker);
    }
}
