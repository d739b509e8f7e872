//! Runs that are made of branches, by a table.
//!
//! A row is `TICKET FROM MOST WAY MOVES RUNS`: the branch of the token of FROM, of at most MOST moves, is put into the machine in the
//! place of TICKET; the way is `plain` or `all`, it has so many moves, and these are its runs, as `TICKET*COUNT`, under the machine's
//! tickets. Or it is `refused`, since TICKET has another token. In a row `step TICKET` the ticket makes its own next move, in a row
//! `live TICKETS` these are the live tickets, in a row `open N` so many entries are open, and in a row `answer N` this is the answer.

ghost use Rattle.std.specs.Prelude.{◌≡◌, ◌+◌, ◌<◌, ◌≤◌, ℕ, length, IfOk, OnOk};
ghost use Rattle.std.specs.Option.{MatchOption};
ghost use Rattle.interleave_laws.specs.Runs.{Runs};
ghost use Rattle.interleave_laws.specs.MapRuns.{IsReachedWithin};

use crate::tickets::{are_live, go};
use branch_runs::{NamedNet, OnNet, Seed, branch_of, graft, name_of};
use interleave_core::{Core, Run, Tickets};
use net_build::Net;
use pcf_values::Val;
use std::alloc::{AllocError, Global};
use std::marker::Brand;
use testing_gates::{cut, number};

/// Whether a row in which nothing moves is so. Another row is answered with `None`.
fn stands_so(core: &Core, row: &str) -> Result<Option<bool>, AllocError> {
    let (first, rest) = cut(row, ' ');
    if first == "live" {
        Ok(Some(are_live(core, rest)))
    } else if first == "open" {
        Ok(Some(core.open_entries()?.len() == number(rest) as usize))
    } else if first == "answer" {
        Ok(Some(core.answer() == Some(Val::Number(number(rest) as u64))))
    } else {
        Ok(None)
    }
}

/// The name of a branch's ticket, where the numbers are those of a test.
fn named(ticket: u32, next: u32, own: u32) -> u32 {
    if next < 10_000 && own < 10_000 {
        name_of(ticket, next, own)
    } else {
        0
    }
}

/// Whether the word is this run.
fn is_run(word: &str, ticket: u32, count: u32) -> bool {
    let (own, many) = cut(word, '*');
    number(own) == ticket && number(many) == count
}

/// Whether these are the longest runs of one ticket, by their names in a state.
fn are_runs(runs: &[Run], ticket: u32, next: u32, text: &str) -> bool {
    let mut words = text.split_whitespace();
    let mut last = 0;
    let mut count: u32 = 0;
    for run in runs {
        let own = named(ticket, next, run.ticket);
        if own != last && count > 0 {
            if !is_run(words.next().unwrap_or(""), last, count) {
                return false;
            }
            count = 0;
        }
        last = own;
        count = count.saturating_add(run.count);
    }
    (count == 0 || is_run(words.next().unwrap_or(""), last, count)) && words.next().is_none()
}

/// The token of a live ticket, to grow a branch from.
fn seed_of<N: OnNet>(core: &Core, ticket: u32) -> Result<Option<Seed<N>>, AllocError>
    requires { (n : ℕ) × IsReachedWithin N.net n core.now }
{
    match core.token(ticket) {
        Some(token) => {
            let token = token.copy()?;
            Ok(Some(Seed::new(token)))
        }
        None => Ok(None),
    }
}

/// Grows the branch of a ticket's token, and puts it into the machine under a ticket: its moves, if it was taken.
fn grafted<N: OnNet>(
    alloc: Global,
    net: &NamedNet<'_, N>,
    core: &mut Core,
    moves: u32,
    ticket: u32,
    from: u32,
    most: u32,
    plain: bool,
) -> Result<Option<Tickets>, AllocError>
    requires runs { Runs N.net }
    requires few { (moves ≤ 1000) × (most ≤ 1000) }
    requires reached { IsReachedWithin N.net (moves + 1) core.old }
    ensures { IfOk result (λ r. MatchOption r (core.new ≡ core.old)
        (λ l. (length l ≤ 1000) × IsReachedWithin N.net (moves + 1 + length l) core.new)) }
{
    match seed_of::<N>(core, from)? {
        Some(seed) => {
            let grown = branch_of(alloc, net, seed, most, plain)?;
            graft(core, ticket, grown)
        }
        None => Ok(None),
    }
}

/// Whether a row in which a branch is put into the machine is so, and how many moves it made.
fn plays(wanted: &str, found: Option<Tickets>, ticket: u32, next: u32) -> (bool, u32)
    ensures { MatchOption found (result.1 ≡ 0) (λ l. result.1 ≡ length l) }
{
    match found {
        Some(tickets) => {
            let (moves, runs) = cut(wanted, ' ');
            let made = tickets.len();
            (
                made == number(moves) && are_runs(tickets.runs(), ticket, next, runs),
                made,
            )
        }
        None => (wanted == "refused", 0),
    }
}

/// Whether a row in which something moves is so, and how many moves were made.
fn moves_so<N: OnNet>(
    alloc: Global,
    net: &NamedNet<'_, N>,
    core: &mut Core,
    moves: u32,
    row: &str,
) -> Result<(bool, u32), AllocError>
    requires runs { Runs N.net }
    requires short { moves ≤ 1000 }
    requires reached { IsReachedWithin N.net (moves + 1) core.old }
    ensures { IfOk result (λ r. (r.1 ≤ 1000) × IsReachedWithin N.net (moves + 1 + r.1) core.new) }
{
    let (first, rest) = cut(row, ' ');
    let (from, rest) = cut(rest, ' ');
    let (most, rest) = cut(rest, ' ');
    let (way, wanted) = cut(rest, ' ');
    let ticket = number(first);
    let next = core.next_ticket();
    let found = grafted(
        alloc,
        net,
        core,
        moves,
        ticket,
        number(from),
        number(most).min(1000),
        way == "plain",
    )?;
    Ok(plays(wanted, found, ticket, next))
}

/// Whether a row is so, and how many moves it made.
fn is_so<N: OnNet>(
    alloc: Global,
    net: &NamedNet<'_, N>,
    core: &mut Core,
    moves: u32,
    row: &str,
) -> Result<(bool, u32), AllocError>
    requires runs { Runs N.net }
    requires short { moves ≤ 1000 }
    requires reached { IsReachedWithin N.net (moves + 1) core.old }
    ensures { IfOk result (λ r. (r.1 ≤ 1000) × IsReachedWithin N.net (moves + 1 + r.1) core.new) }
{
    if let Some(told) = stands_so(core, row)? {
        return Ok((told, 0));
    }
    let (first, rest) = cut(row, ' ');
    if first == "step" {
        go(net.net(), core, moves, number(rest))?;
        Ok((true, 1))
    } else {
        moves_so(alloc, net, core, moves, row)
    }
}

/// Rows, one a line.
#[derive(Clone, Copy)]
pub(crate) struct Table<'a> {
    pub(crate) rows: &'a str,
}

/// Whether all rows are so, in turn.
fn are_so<N: OnNet>(
    alloc: Global,
    net: &NamedNet<'_, N>,
    core: &mut Core,
    table: Table<'_>,
) -> Result<bool, AllocError>
    requires runs { Runs N.net }
    requires reached { IsReachedWithin N.net 1 core.old }
{
    let mut moves = 0;
    for row in table.rows.lines() {
        if moves > 1000 {
            return Ok(false);
        }
        let (so, made) = is_so(alloc, net, core, moves, row)?;
        if !so {
            return Ok(false);
        }
        moves += made;
    }
    Ok(true)
}

/// Whether each row is so, from the start of the net that `N` names.
fn plays_all<N: OnNet>(alloc: Global, net: Net, table: Table<'_>) -> Result<bool, AllocError>
    requires named { net ≡ N.net }
    requires runs { Runs N.net }
{
    let mut core = Core::start(alloc, &net)?;
    let named: NamedNet<'_, N> = NamedNet::new(&net);
    let so = are_so(alloc, &named, &mut core, table);
    drop(core);
    so
}

/// Whether each row of the table is so, from the start of the net on.
pub(crate) fn is_played(alloc: Global, net: Net, rows: &str) -> Result<bool, AllocError>
    requires { Runs net }
{
    plays_all::<Brand>(alloc, net, Table { rows })
}
