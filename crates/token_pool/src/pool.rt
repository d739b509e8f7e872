//! The state that workers share.
//!
//! No command calls `take` and `book`: they are the plain form of `take_branch` and `book_branch`, kept as the simplest statement of the
//! protocol.

ghost use Rattle.std.specs.Prelude.{◌≡◌, ◌<◌, ◌≤◌, ◌↔◌, [], IfOk, OnErr, OnOk, IsErr, IsTrue, length};
ghost use Rattle.interleave_laws.specs.Runs.{Runs};
ghost use Rattle.schedule_log.specs.LogsSeen.{empty_log};
ghost use Rattle.token_pool.specs.declared.entries.Held.{Held};
ghost use Rattle.token_pool.specs.declared.entries.Reply.TheVariants.{Token};
ghost use Rattle.token_pool.specs.Pieces.{Hands};
ghost use Rattle.token_pool.specs.Pools.{InLimits, Good, started, count_held, none_held_by};
ghost use Rattle.token_pool.specs.Turns.{turn, taken, count_free, spent, spare_pieces};
ghost use Rattle.token_pool.specs.Booking.{BookedAs, HoldsOther, halted};
ghost use Rattle.token_pool.specs.Ending.{Suits, Finishes, Replays};
ghost use Rattle.token_pool.specs.Branches.{preferred, for_branch, widened, branch_turn, branch_taken, HandsSeed, plays_plain};
ghost use Rattle.token_pool.specs.Branches.{BookedBranch};

use crate::booking::{play, write_down};
use crate::branches::{branch_part, own_first, play_branch, words_at, write_made};
use crate::ending::play_on;
use crate::pieces::hand;
use crate::places::Places;
use crate::turns::next_line;
use crate::{Booked, Ended, Held, Reply, Taken};
use branch_runs::{Branch, OnNet};
use interleave_core::Core;
use move_rules::Moved;
use net_build::Net;
use pcf_values::Val;
use schedule_log::Log;
use std::alloc::{AllocError, Global};
use std::marker::Model;

/// A net with its budget, the machine's state on it, the moves made so far, and what each worker holds. The net is borrowed. Contracts see
/// it as a pool, and every one is good.
#[derive(Drop)]
pub struct PoolState<'n> {
    net: &'n Net,
    budget: u32,
    workers: u32,
    core: Core,
    log: Log,
    held: Places,
    stopped: bool,
}

impl<'n> Model for PoolState<'n> {
    ghost use Rattle.std.specs.Prelude.{◌≤◌};
    ghost use Rattle.token_pool.specs.Pools.{Pool, Good};
    ghost use Rattle.token_pool.specs.Codes.{pool_code, pool};

    ghost Value = { Pool };

    ghost coded = { pool_code };

    ghost view = { λ a. pool a.net.now a.budget a.workers a.core a.log.entries a.held a.stopped };

    ghost invariant = { λ a. Good (pool a.net.now a.budget a.workers a.core a.log.entries a.held a.stopped) × (a.budget ≤ a.log.room) };
}

/// Room for the whole log, and a place for each worker.
fn lists_of(alloc: Global, budget: u32, workers: u32) -> Result<(Log, Places), AllocError>
    ensures log { IfOk result (λ p. p.0 ≡ empty_log budget) }
    ensures held { IfOk result (λ p. p.1 ≡ none_held_by workers) }
{
    let log = Log::with_room(alloc, budget)?;
    let held = Places::free(alloc, workers)?;
    Ok((log, held))
}

impl<'n> PoolState<'n> {
    /// The pool in which a run of this net begins. It takes all the memory that its log will need.
    ///
    /// # Errors
    ///
    /// It runs out of memory.
    pub fn start(
        alloc: Global,
        net: &'n Net,
        budget: u32,
        workers: u32,
    ) -> Result<PoolState<'n>, AllocError>
        requires runs { Runs net.now }
        requires limits { InLimits budget workers }
        ensures { IfOk result (λ p. p ≡ started net.now budget workers) }
    {
        let core = Core::start(alloc, net)?;
        let (log, held) = lists_of(alloc, budget, workers)?;
        Ok(PoolState {
            net,
            budget,
            workers,
            core,
            log,
            held,
            stopped: false,
        })
    }

    /// The net, which runs. Takes no memory.
    pub fn net(&self) -> &'n Net
        ensures net { result.now ≡ self.now.net }
        ensures runs { Runs self.now.net }
    {
        self.net
    }

    /// How many moves were made. Takes no memory.
    pub fn booked(&self) -> u32
        ensures count { result ≡ length self.now.log }
        ensures good { Good self.now }
    {
        self.log.len()
    }

    /// How many tickets are held. Takes no memory.
    pub fn held_count(&self) -> u32
        ensures { result ≡ count_held self.now.held }
    {
        self.held.holders() as u32
    }

    /// How many live tickets no worker holds. Takes no memory.
    pub fn free_count(&self) -> u32
        ensures { result ≡ count_free self.now }
    {
        self.core.live_count() - self.held_count()
    }

    /// How many moves are made or set aside.
    fn spent(&self) -> u32
        ensures { result ≡ spent self.now }
    {
        self.log.len() + self.held.set_aside()
    }

    /// For how many pieces it is worth to wake a worker: as many as tickets are free, and none where the whole budget is made or set
    /// aside. Takes no memory.
    pub fn spare_pieces(&self) -> u32
        ensures { result ≡ spare_pieces self.now }
    {
        if self.spent() == self.budget {
            0
        } else {
            self.free_count()
        }
    }

    /// Whether the pool was stopped. Takes no memory.
    pub fn stopped(&self) -> bool
        ensures { result ≡ self.now.stopped }
    {
        self.stopped
    }

    /// The answer, if it came. Takes no memory.
    pub fn answer(&self) -> Option<Val>
        ensures { result ≡ self.now.state.answered }
    {
        self.core.answer()
    }

    /// Whether there is a place for a worker of this number: the workers count from 0. Takes no memory.
    pub fn has_place(&self, worker: u32) -> bool
        ensures { IsTrue result ↔ (worker < self.now.workers) }
    {
        worker < self.workers
    }

    /// What a worker is told.
    fn told(&self, worker: u32) -> Reply
        ensures { result ≡ turn self.now worker }
    {
        if self.stopped {
            return Reply::Stopped;
        }
        if let Some(held) = self.held.held_by(worker) {
            return Reply::Token(held);
        }
        next_line(
            &self.core,
            self.log.len(),
            &self.held,
            self.budget,
            self.workers,
        )
    }

    /// Gives a worker that asks for work what the first of six lines says that holds, and a token with it. After want of memory all is
    /// as before.
    ///
    /// # Errors
    ///
    /// It runs out of memory, and only where there is a token to hand out.
    pub fn take(&mut self, worker: u32) -> Result<Taken, AllocError>
        requires { worker < self.old.workers }
        ensures handed { IfOk result (Hands self.old.state (turn self.old worker)) }
        ensures ok { OnOk result (self.new ≡ taken self.old worker) }
        ensures err { OnErr result (self.new ≡ self.old) }
        ensures ample { OnErr result ((h : Held) × (turn self.old worker ≡ Token h)) }
    {
        let told = self.told(worker);
        let taken = hand(&self.core, told)?;
        self.held.hold(worker, told);
        Ok(taken)
    }

    /// Books what a worker walked from the token that it holds, where it is a walk of that token within its allowance, and takes no
    /// memory then; otherwise it makes exactly one step of it. The worker holds nothing afterwards. After want of memory all is as before.
    ///
    /// # Errors
    ///
    /// It runs out of memory, and only where the walk isn't taken over.
    pub fn book(&mut self, worker: u32, moved: Moved) -> Result<Booked, AllocError>
        requires { worker < self.old.workers }
        ensures ok { IfOk result (BookedAs self.old self.new worker moved) }
        ensures err { OnErr result (self.new ≡ self.old) }
        ensures ample { OnErr result (HoldsOther self.old worker moved) }
    {
        let Some(held) = self.held.held_by(worker) else {
            drop(moved);
            return Ok(Booked::NothingHeld);
        };
        let done = self.log.len();
        let count = play(&mut self.core, self.net, held, moved)?;
        write_down(&mut self.log, count, held.ticket, worker);
        self.held.let_go(worker);
        Ok(Booked::Done(done))
    }

    /// A free ticket with what is set aside for a branch of it.
    fn for_branch(&self, held: Held) -> Held
        ensures { result ≡ for_branch self.now held }
    {
        let left = self.budget - self.spent();
        let words = words_at(&self.core, held.ticket);
        Held {
            ticket: held.ticket,
            allowance: branch_part(left, self.workers, self.core.live_count(), words),
        }
    }

    /// What a worker is told that holds nothing, for a branch.
    fn widened(&self, told: Reply) -> Reply
        ensures { result ≡ widened self.now told }
    {
        match told {
            Reply::Token(held) => Reply::Token(self.for_branch(held)),
            Reply::Stopped => Reply::Stopped,
            Reply::Ended => Reply::Ended,
            Reply::Idle => Reply::Idle,
            Reply::Reserved => Reply::Reserved,
        }
    }

    /// What a worker is told that holds nothing, with its own ticket first.
    fn preferred(&self, worker: u32, told: Reply) -> Reply
        ensures { result ≡ preferred self.now worker told }
    {
        match told {
            Reply::Token(held) => Reply::Token(Held {
                ticket: own_first(
                    &self.core,
                    &self.held,
                    &self.log,
                    self.workers,
                    worker,
                    held.ticket,
                ),
                allowance: held.allowance,
            }),
            Reply::Stopped => Reply::Stopped,
            Reply::Ended => Reply::Ended,
            Reply::Idle => Reply::Idle,
            Reply::Reserved => Reply::Reserved,
        }
    }

    /// What a worker is told that plays branches.
    fn told_branch(&self, worker: u32) -> Reply
        ensures { result ≡ branch_turn self.now worker }
    {
        let told = self.told(worker);
        if self.held.held_by(worker).is_some() {
            return told;
        }
        self.widened(self.preferred(worker, told))
    }

    /// Whether a branch that is given out now is to be plain: with one worker, and while fewer tickets are free than there are workers.
    /// Takes no memory.
    pub fn plays_plain(&self) -> bool
        ensures { result ≡ plays_plain self.now }
    {
        self.workers == 1 || self.free_count() < self.workers
    }

    /// Gives a worker that asks for a branch to play what `take` would give it, but with as many moves set aside for a free ticket as a
    /// branch may have. After want of memory all is as before.
    ///
    /// # Errors
    ///
    /// It runs out of memory, and only where there is a token to hand out.
    pub fn take_branch(&mut self, worker: u32) -> Result<Taken, AllocError>
        requires { worker < self.old.workers }
        ensures handed { IfOk result (Hands self.old.state (branch_turn self.old worker)) }
        ensures seed { IfOk result (HandsSeed self.old.net) }
        ensures ok { OnOk result (self.new ≡ branch_taken self.old worker) }
        ensures err { OnErr result (self.new ≡ self.old) }
        ensures ample { OnErr result ((h : Held) × (branch_turn self.old worker ≡ Token h)) }
    {
        let told = self.told_branch(worker);
        let taken = hand(&self.core, told)?;
        self.held.hold(worker, told);
        Ok(taken)
    }

    /// Books a branch of the token that the worker holds, where it has at least one move and no more than are set aside, and is plain if
    /// there is one worker; otherwise it makes exactly one step of that token. The worker holds nothing afterwards. After want of memory
    /// all is as before.
    ///
    /// # Errors
    ///
    /// It runs out of memory.
    pub fn book_branch<N: OnNet>(
        &mut self,
        worker: u32,
        branch: Branch<N>,
    ) -> Result<Booked, AllocError>
        requires place { worker < self.old.workers }
        requires named { self.old.net ≡ N.net }
        ensures ok { IfOk result (BookedBranch self.old self.new worker branch) }
        ensures err { OnErr result (self.new ≡ self.old) }
    {
        let Some(held) = self.held.held_by(worker) else {
            return Ok(Booked::NothingHeld);
        };
        let done = self.log.len();
        let next = self.core.next_ticket();
        let made = play_branch(&mut self.core, self.net, held, self.workers, branch)?;
        write_made(&mut self.log, held.ticket, next, worker, made);
        self.held.let_go(worker);
        Ok(Booked::Done(done))
    }

    /// Stops the pool: whoever asks for work is told so. Takes no memory.
    pub fn stop(&mut self)
        ensures { self.new ≡ halted self.old }
    {
        self.stopped = true;
    }

    /// Whether the pool is one of this net, budget and number of workers.
    fn suits(&self, net: &Net, budget: u32, workers: u32) -> bool
        ensures { IsTrue result ↔ Suits self.now net.now budget workers }
    {
        self.net.same(net) && self.budget == budget && self.workers == workers
    }

    /// Puts back what is held, and lets the least live ticket move until the answer or the budget.
    fn close(self) -> Result<Ended, AllocError>
        ensures finishes { IfOk result (Finishes self.entry) }
        ensures replays { IfOk result (Replays self.entry.net self.entry.budget self.entry.workers) }
    {
        let PoolState {
            net,
            budget,
            workers,
            mut core,
            mut log,
            held,
            ..
        } = self;
        drop(held);
        let done = play_on(&mut core, net, &mut log, budget, workers);
        let answer = core.answer();
        drop(core);
        done?;
        Ok(Ended { answer, log })
    }

    /// Finishes a run of this net as `finish` does, where the pool is known to be one of it: no nets are compared.
    ///
    /// # Errors
    ///
    /// It runs out of memory, and always so where the pool was stopped.
    pub fn finish_own(self, alloc: Global, budget: u32, workers: u32) -> Result<Ended, AllocError>
        requires { InLimits budget workers }
        ensures stopped { IsTrue self.entry.stopped → IsErr result }
        ensures same { (self.entry.budget ≡ budget) × (self.entry.workers ≡ workers) → IfOk result (Finishes self.entry) }
        ensures other { ((self.entry.budget ≡ budget) × (self.entry.workers ≡ workers) → ⊥) →
            IfOk result (Finishes (started self.entry.net budget workers)) }
        ensures replays { IfOk result (Replays self.entry.net budget workers) }
    {
        if self.stopped {
            drop(self);
            return Err(AllocError);
        }
        if self.budget == budget && self.workers == workers {
            return self.close();
        }
        let net = self.net;
        drop(self);
        let begun = PoolState::start(alloc, net, budget, workers)?;
        begun.close()
    }

    /// Finishes a run of this net: a pool that was stopped has no memory left, and no answer; one of this net, budget and number of
    /// workers goes on from where it stands, with all that is held put back; and in place of any other a new one is begun. The least live
    /// ticket moves until the answer or the budget, and its moves are written down for the number of workers.
    ///
    /// # Errors
    ///
    /// It runs out of memory, and always so where the pool was stopped.
    pub fn finish(
        self,
        alloc: Global,
        net: &Net,
        budget: u32,
        workers: u32,
    ) -> Result<Ended, AllocError>
        requires runs { Runs net.now }
        requires limits { InLimits budget workers }
        ensures stopped { IsTrue self.entry.stopped → IsErr result }
        ensures same { Suits self.entry net.now budget workers → IfOk result (Finishes self.entry) }
        ensures other { (Suits self.entry net.now budget workers → ⊥) → IfOk result (Finishes (started net.now budget workers)) }
        ensures replays { IfOk result (Replays net.now budget workers) }
    {
        if self.stopped {
            drop(self);
            return Err(AllocError);
        }
        if self.suits(net, budget, workers) {
            return self.close();
        }
        drop(self);
        let begun = PoolState::start(alloc, net, budget, workers)?;
        begun.close()
    }
}
