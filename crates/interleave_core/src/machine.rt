//! The machine's state, and its steps.

ghost use Rattle.std.specs.Prelude.{◌≡◌, ◌↔◌, ◌+◌, ◌<◌, ◌≤◌, ◌^◌, ℕ, map, replicate, Some, None, OnOk, OnErr, IfOk, IsSome, IfSome};
ghost use Rattle.std.specs.Prelude.{IfNone, IsTrue, length};
ghost use Rattle.std.specs.Bool.{MatchBool};
ghost use Rattle.std.specs.Option.{option_map, option_copied, MatchOption};
ghost use Rattle.std.specs.FinMap.{entries, get, len, insert, empty};
ghost use Rattle.interleave_core.specs.Parts.{state};
ghost use Rattle.pcf_values.specs.Most.{most_budget};
ghost use Rattle.fork_join.specs.Listed.{open_of};
ghost use Rattle.net_build.specs.Sound.{Sound};
ghost use Rattle.move_rules.specs.Views.{token_of};
ghost use Rattle.interleave_laws.specs.Start.{start_of};
ghost use Rattle.interleave_laws.specs.Runs.{Runs};
ghost use Rattle.interleave_laws.specs.Maps.{start_map, step_map, run_map};
ghost use Rattle.interleave_laws.specs.MapRuns.{IsReachedWithin};
ghost use Rattle.interleave_laws.specs.Tickets.{IsLive, NoneLive, IsLeastLive, NoneLiveAbove, IsNextLive};
ghost use Rattle.interleave_core.specs.Names.{step_name, MayTake};
ghost use Rattle.interleave_core.specs.Adopting.{Accepts, adopted};
ghost use Rattle.interleave_core.specs.Owning.{GoesAlone, OwnAble, StepsOwn, StandsForeign};
ghost use Rattle.interleave_core.specs.Grafts.{Grafts};
ghost use Rattle.interleave_core.specs.Newest.{IsNewestLive};
ghost use Rattle.token_stacks.specs.Signatures.{Boxes};

use crate::Stepped;
use crate::acting::step_in;
use crate::adopting::adopt_in;
use crate::grafting::graft_in;
use crate::owning::step_own;
use crate::parts::{Parts, begin_any, begin_at};
use fork_join::Open;
use move_rules::{Moved, Token};
use net_build::Net;
use pcf_values::Val;
use std::alloc::{AllocError, Global};
use std::marker::Model;

/// A state of the machine: the live tokens by their tickets, the entries of open forks, the next ticket, and the answer if it came.
///
/// A step costs what its move moves, and a look-up among the live tickets or the entries costs a logarithm of their number. No call
/// scans.
#[derive(Drop)]
pub struct Core {
    parts: Parts,
}

impl Model for Core {
    ghost use Rattle.std.specs.Prelude.{◌≤◌};
    ghost use Rattle.std.specs.FinMap.{len};
    ghost use Rattle.interleave_laws.specs.Maps.{MapState};
    ghost use Rattle.interleave_laws.specs.Codes.{state_code};
    ghost use Rattle.interleave_core.specs.Parts.{state_of, state};

    ghost Value = { MapState };

    ghost coded = { state_code };

    ghost view = { λ a. state_of a.parts };

    ghost invariant = { λ a. len a.parts.live ≤ a.parts.next };
}

impl Core {
    /// The state in which a run of this net begins: ticket 0 asks for the value of the net's first root.
    ///
    /// # Errors
    ///
    /// It runs out of memory.
    pub fn start(alloc: Global, net: &Net) -> Result<Core, AllocError>
        ensures { IfOk result (λ c. c ≡ start_map (start_of net.now)) }
    {
        let parts = begin_any(alloc, net)?;
        Ok(Core { parts })
    }

    /// Whether the ticket has a token. Takes no memory.
    pub fn is_live(&self, ticket: u32) -> bool
        ensures { IsTrue result ↔ IsLive self.now ticket }
    {
        self.parts.live.get(ticket).is_some()
    }

    /// The least live ticket, and `None` exactly where no token is live. Takes no memory.
    pub fn least_live(&self) -> Option<u32>
        ensures { MatchOption result (NoneLive self.now) (IsLeastLive self.now) }
    {
        self.parts.live.least()
    }

    /// The newest live ticket, and `None` exactly where no token is live. Tickets are given out in turn, so it is the greatest. Takes no
    /// memory.
    pub fn newest_live(&self) -> Option<u32>
        ensures { MatchOption result (NoneLive self.now) (IsNewestLive self.now) }
    {
        self.parts.live.newest()
    }

    /// The least live ticket above the given one, and `None` exactly where there is none. Takes no memory.
    pub fn next_live(&self, ticket: u32) -> Option<u32>
        ensures { MatchOption result (NoneLiveAbove self.now ticket) (IsNextLive self.now ticket) }
    {
        self.parts.live.next(ticket)
    }

    /// How many tickets are live, in constant time. Takes no memory.
    pub fn live_count(&self) -> u32
        ensures { result ≡ len self.now.tokens }
    {
        let count = self.parts.live.count();
        prove!(count <= self.parts.next as usize);
        count as u32
    }

    /// The token of a ticket, and `None` exactly where the ticket isn't live. Takes no memory.
    pub fn token(&self, ticket: u32) -> Option<&Token>
        ensures { option_map token_of (option_copied result) ≡ get self.now.tokens ticket }
    {
        self.parts.live.get(ticket)
    }

    /// The open entries, in the order of their keys: by node, and then by box stack. It takes steps and memory that grow with the number
    /// of entries, and of nodes that ever forked.
    ///
    /// # Errors
    ///
    /// The list runs out of memory.
    pub fn open_entries(&self) -> Result<Vec<Open<'_>>, AllocError>
        ensures { IfOk result (λ list. map open_of list.items ≡ entries self.now.entries) }
    {
        self.parts.joins.entries()
    }

    /// The answer, and `None` exactly where it didn't come yet. Takes no memory.
    pub fn answer(&self) -> Option<Val>
        ensures { result ≡ self.now.answered }
    {
        self.parts.answer
    }

    /// Makes the one move of a live ticket on the net that the state is a run of, and tells what it was. A solo move copies no token; a
    /// fork copies the box stack twice, for its new token and for its entry.
    ///
    /// # Errors
    ///
    /// It runs out of memory; the state is as it was. Only a solo move and a fork take memory: a step that joins or brings the answer never
    /// fails.
    pub fn step(&mut self, net: &Net, ticket: u32) -> Result<Stepped, AllocError>
        requires runs { Runs net.now }
        requires live { IsLive self.old ticket }
        requires reached { IsReachedWithin net.now most_budget self.old }
        ensures name { IfOk result (λ s. step_name net.now self.old ticket ≡ Some s) }
        ensures steps { OnOk result (step_map net.now self.old ticket ≡ Some self.new) }
        ensures stays { OnErr result (self.new ≡ self.old) }
        ensures taken { OnErr result (MayTake (step_name net.now self.old ticket)) }
    {
        step_in(&mut self.parts, net, ticket)
    }

    /// Takes over a walk of the ticket's token that was made elsewhere: it answers `Some` with the number of moves exactly where the walk
    /// begins with that token, has at least one move and at most `most`, and each node of its trail is the net's. These are as many steps
    /// of the ticket. Otherwise it answers `None`, and all stays. Takes no memory.
    pub fn adopt(&mut self, net: &Net, ticket: u32, moved: Moved, most: u32) -> Option<u32>
        requires sound { Sound net.now }
        ensures accepted { IsSome result ↔ Accepts net.now self.old ticket moved most }
        ensures count { IfSome result (λ n. n ≡ length moved.trail) }
        ensures steps { IfSome result (λ n. run_map net.now self.old (replicate n ticket) ≡ Some self.new) }
        ensures after { IfSome result (λ n. self.new ≡ adopted self.old ticket moved) }
        ensures stays { IfNone result (self.new ≡ self.old) }
    {
        adopt_in(&mut self.parts.live, net, ticket, moved, most)
    }

    /// The state in which one token runs by itself: it is live under ticket 0, and there is nothing else.
    ///
    /// # Errors
    ///
    /// It runs out of memory; the token is dropped.
    pub fn alone(alloc: Global, token: Token) -> Result<Core, AllocError>
        ensures { IfOk result (λ c. c ≡ state (insert empty 0 (token_of token)) empty 1 None) }
    {
        let parts = begin_at(alloc, token)?;
        Ok(Core { parts })
    }

    /// The ticket that a fork would give out next. Takes no memory.
    pub fn next_ticket(&self) -> u32
        ensures { result ≡ self.now.next }
    {
        self.parts.next
    }

    /// Makes the solo moves of a live ticket on this net, at most `most`, until its next move is a fork, a join, the answer, or none; how
    /// many they are. The ticket is looked up once for all of them. It holds for every state on every net.
    ///
    /// # Errors
    ///
    /// It runs out of memory; some of the moves may be made then.
    pub fn walk(&mut self, net: &Net, ticket: u32, most: u32) -> Result<u32, AllocError>
        requires live { IsLive self.old ticket }
        ensures { IfOk result (λ n. GoesAlone net.now self.old ticket most n self.new) }
    {
        self.parts.live.go(net, ticket, most)
    }

    /// Makes the one move of a live ticket on this net, but no answer and no join whose entry isn't there: before those it answers `false`,
    /// and all stays. It serves a token that runs by itself, of whose own forks alone something is known; so it asks for what such a run
    /// has, and not that a log leads to the state.
    ///
    /// # Errors
    ///
    /// It runs out of memory; the state is as it was.
    pub fn step_own(&mut self, net: &Net, ticket: u32) -> Result<bool, AllocError>
        requires live { IsLive self.old ticket }
        requires able { OwnAble net.now self.old ticket }
        requires fresh { get self.old.tokens self.old.next ≡ None }
        requires room { self.old.next + 1 < 2 ^ 32 }
        ensures ok { IfOk result (λ moved. MatchBool moved (StepsOwn net.now self.old ticket self.new)
            (StandsForeign net.now self.old ticket × (self.new ≡ self.old))) }
        ensures err { OnErr result (self.new ≡ self.old) }
    {
        step_own(&mut self.parts, net, ticket)
    }

    /// Puts another state into this one, in the place of a live ticket: its token of ticket 0 under that ticket, its other tokens under the
    /// tickets that come next, and its entries with those that are here. No entry of the one may be one of the other.
    ///
    /// Each of its tokens but the first takes a look-up here, each of its entries one and a copy of its box stack.
    ///
    /// # Errors
    ///
    /// It runs out of memory; the state is as it was.
    pub fn graft(&mut self, ticket: u32, branch: Core) -> Result<(), AllocError>
        requires live { IsLive self.old ticket }
        requires low { (q : ℕ) → self.old.next ≤ q → get self.old.tokens q ≡ None }
        requires branch_low { (q : ℕ) → branch.next ≤ q → get branch.tokens q ≡ None }
        requires begun { 1 ≤ branch.next }
        requires room { self.old.next + branch.next ≤ 2 ^ 32 }
        requires apart { (n : ℕ) (t : Boxes) → IsSome (get branch.entries (n, t)) → get self.old.entries (n, t) ≡ None }
        ensures ok { OnOk result (Grafts self.old ticket branch self.new) }
        ensures err { OnErr result (self.new ≡ self.old) }
    {
        let Core { parts } = branch;
        graft_in(&mut self.parts, ticket, parts)
    }
}
