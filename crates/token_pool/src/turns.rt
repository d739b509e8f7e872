//! What a worker is told that asks for work.

ghost use Rattle.std.specs.Prelude.{◌≡◌, ◌<◌, ◌≤◌, ◌+◌, ℕ};
ghost use Rattle.std.specs.FinMap.{len};
ghost use Rattle.interleave_laws.specs.Tickets.{IsLive};
ghost use Rattle.token_pool.specs.Pools.{allowances, count_held};
ghost use Rattle.token_pool.specs.Turns.{free_in, least_free_of, allowance, offered, ends, next_lines};

use crate::places::Places;
use crate::{Held, Reply};
use interleave_core::Core;
use pcf_values::Val;

/// The least live ticket that no worker holds. Where as many are held as are live there is none, and no ticket is looked at.
pub(crate) fn least_free(core: &Core, places: &Places) -> Option<u32>
    requires low { (i : ℕ) → IsLive core.now i → i < core.now.next }
    requires counted { len core.now.tokens ≡ len (free_in core.now.tokens places.now) + count_held places.now }
    ensures { result ≡ least_free_of core.now places.now }
{
    if places.holders() == core.live_count() as usize {
        return None;
    }
    let Some(mut ticket) = core.least_live() else {
        return None;
    };
    while places.holds(ticket) {
        match core.next_live(ticket) {
            Some(next) => ticket = next,
            None => return None,
        }
    }
    Some(ticket)
}

/// What is set aside for a ticket that is given out.
fn part(left: u32, workers: u32) -> u32
    requires { 1 ≤ workers }
    ensures { result ≡ allowance left workers }
{
    (left / workers).max(1).min(64)
}

/// A free ticket, unless the whole budget is made or set aside.
pub(crate) fn offer(made: u32, budget: u32, workers: u32, ticket: u32) -> Reply
    requires within { made ≤ budget }
    requires some { 1 ≤ workers }
    ensures { result ≡ offered made budget workers ticket }
{
    if made == budget {
        return Reply::Reserved;
    }
    Reply::Token(Held {
        ticket,
        allowance: part(budget - made, workers),
    })
}

/// Whether there is an answer, or the whole budget is made and nothing is held.
fn has_ended(answer: Option<Val>, made: u32, budget: u32, places: &Places) -> bool
    ensures { result ≡ ends answer made budget places.now }
{
    answer.is_some() || (made == budget && places.nobody_holds())
}

/// What a worker is told that holds nothing, where the pool isn't stopped.
pub(crate) fn next_line(core: &Core, made: u32, places: &Places, budget: u32, workers: u32) -> Reply
    requires low { (i : ℕ) → IsLive core.now i → i < core.now.next }
    requires counted { len core.now.tokens ≡ len (free_in core.now.tokens places.now) + count_held places.now }
    requires within { made + allowances places.now ≤ budget }
    requires some { 1 ≤ workers }
    ensures { result ≡ next_lines core.now made places.now budget workers }
{
    if has_ended(core.answer(), made, budget, places) {
        return Reply::Ended;
    }
    match least_free(core, places) {
        Some(ticket) => offer(made + places.set_aside(), budget, workers, ticket),
        None => Reply::Idle,
    }
}
