//! Rounds of a net, up to the answer or a budget.

ghost use Rattle.std.specs.Prelude.{◌≡◌, ◌≤◌, ◌<◌, ◌+◌, suc, [], length, Some, None, OnOk, IfOk, IsTrue, IsFalse};
ghost use Rattle.std.specs.FinMap.{len};
ghost use Rattle.pcf_values.specs.declared.val.Val.{Val};
ghost use Rattle.pcf_values.specs.Most.{most_budget};
ghost use Rattle.interleave_laws.specs.Runs.{Runs};
ghost use Rattle.interleave_laws.specs.Maps.{MapState, LeadsToMap, seen};
ghost use Rattle.adequacy_laws.specs.Questions.{Span};
ghost use Rattle.adequacy_laws.specs.Finished.{Beyond};
ghost use Rattle.round_laws.specs.Rounds.{live_of, round_log};
ghost use Rattle.round_laws.specs.AfterRounds.{rounds};
ghost use Rattle.round_runs.specs.Profiles.{profile_of, greatest};
ghost use Rattle.round_runs.specs.Making.{IsMade};

use crate::making::move_all;
use interleave_core::Core;
use net_build::Net;
use pcf_values::Val;
use std::alloc::{AllocError, Global};

/// What rounds made of a net.
#[derive(Drop)]
pub struct Rounds {
    /// The tickets that moved, in turn: round by round, and in each the least first.
    pub tickets: Vec<u32>,
    /// How many tokens were live before each round, so how many moves it made.
    pub profile: Vec<u32>,
    /// How many rounds that were.
    pub rounds: u32,
    /// The most tokens that were live before one of them, and 0 where there was none.
    pub widest: u32,
    /// The answer, if it came.
    pub answer: Option<Val>,
}

/// Rounds so far, and the state behind them.
#[derive(Drop)]
pub(crate) struct Making {
    core: Core,
    tickets: Vec<u32>,
    profile: Vec<u32>,
    widest: u32,
}

/// Nothing is made yet.
fn begin(alloc: Global, net: &Net) -> Result<Making, AllocError>
    ensures made { IfOk result (λ m. IsMade net.now m.tickets.items m.profile.items m.widest m.core) }
    ensures none { IfOk result (λ m. m.tickets.items ≡ []) }
{
    let core = Core::start(alloc, net)?;
    Ok(Making {
        core,
        tickets: Vec::new(alloc),
        profile: Vec::new(alloc),
        widest: 0,
    })
}

/// A round more.
fn round_on(made: &mut Making, net: &Net) -> Result<(), AllocError>
    requires runs { Runs net.now }
    requires made { IsMade net.now made.old.tickets.items made.old.profile.items made.old.widest made.old.core }
    requires unanswered { made.old.core.answered ≡ None }
    requires room { length made.old.tickets.items + length (live_of (seen made.old.core)) ≤ most_budget }
    ensures made { OnOk result (IsMade net.now made.new.tickets.items made.new.profile.items made.new.widest made.new.core) }
    ensures more { OnOk result (length made.new.tickets.items ≡
        length made.old.tickets.items + length (live_of (seen made.old.core))) }
{
    let live = made.core.live_count();
    move_all(&mut made.core, net, &mut made.tickets)?;
    made.profile.push(live)?;
    made.widest = made.widest.max(live);
    Ok(())
}

/// Whether another round is made: there is no answer yet, and the budget has a move left for each live token.
fn goes_on(made: &Making, budget: u32) -> bool
    requires within { length made.now.tickets.items ≤ budget }
    ensures unanswered { IsTrue result → made.now.core.answered ≡ None }
    ensures fits { IsTrue result → length made.now.tickets.items + len made.now.core.tokens ≤ budget }
    ensures ends { IsFalse result → made.now.core.answered ≡ None → budget < length made.now.tickets.items + len made.now.core.tokens }
{
    made.core.answer().is_none()
        && made.core.live_count() as usize <= budget as usize - made.tickets.len()
}

/// Rounds of this net: each live ticket moves once, the least first, round after round, until the answer comes or the moves of the next
/// round would be more than the budget has left. Where the answer comes, the rounds are the net's span.
///
/// Each move takes a look-up among the live tickets more than in the run of one worker. Besides the net and the live tokens, the run takes
/// the memory of its log and of its profile, an entry a round.
///
/// # Errors
///
/// It runs out of memory.
pub fn run_rounds(alloc: Global, net: &Net, budget: u32) -> Result<Rounds, AllocError>
    requires runs { Runs net.now }
    requires budget { (1 ≤ budget) × (budget ≤ most_budget) }
    ensures log { IfOk result (λ r. r.tickets.items ≡ round_log net.now r.rounds) }
    ensures profile { IfOk result (λ r. r.profile.items ≡ profile_of net.now r.rounds) }
    ensures many { IfOk result (λ r. length r.profile.items ≡ r.rounds) }
    ensures widest { IfOk result (λ r. r.widest ≡ greatest r.profile.items) }
    ensures within { IfOk result (λ r. length r.tickets.items ≤ budget) }
    ensures answer { IfOk result (λ r. (S : MapState) × LeadsToMap net.now r.tickets.items S ×
        (rounds net.now r.rounds ≡ Some (seen S)) × (r.answer ≡ S.answered)) }
    ensures span { IfOk result (λ r. (v : Val) → r.answer ≡ Some v → Span net.now v r.rounds) }
    ensures beyond { IfOk result (λ r. r.answer ≡ None → Beyond net.now budget) }
    ensures spent { IfOk result (λ r. r.answer ≡ None → budget < length (round_log net.now (suc r.rounds))) }
{
    let mut made = begin(alloc, net)?;
    while goes_on(&made, budget) {
        round_on(&mut made, net)?;
    }
    Ok(Rounds {
        answer: made.core.answer(),
        rounds: made.profile.len() as u32,
        tickets: made.tickets,
        profile: made.profile,
        widest: made.widest,
    })
}
