//! What stands behind the lock: the bench, and who sleeps beside it.

ghost use Rattle.std.specs.Prelude.{◌≡◌, ◌+◌, ◌-◌, ◌≤◌, IfSome, IfNone, IfOk, OnErr};
ghost use Rattle.gate_workers.specs.Served.{HandedIn, Asked, Reached, Halted};

use crate::worker::Due;
use crate::{Bench, Turn};
use std::alloc::AllocError;

/// What a worker brings: nothing, what it made of its piece, or want of memory.
pub(crate) type Brought<M> = Option<Result<M, AllocError>>;

/// Hands in what the worker made, if it made something.
fn hand_in<B: Bench>(
    bench: &mut B,
    worker: u32,
    brought: Brought<B::Made>,
) -> Result<(), AllocError>
    ensures ok { IfOk result (λ _. HandedIn B.takes_in bench.old worker brought bench.new) }
    ensures err { OnErr result (bench.new ≡ bench.old) }
{
    match brought {
        Some(Ok(made)) => bench.hand_in(worker, made),
        Some(Err(e)) => Err(e),
        None => Ok(()),
    }
}

/// Hands in, and asks what to do next.
fn ask<B: Bench>(
    bench: &mut B,
    worker: u32,
    brought: Brought<B::Made>,
) -> Result<Turn<B::Piece>, AllocError>
    ensures ok { IfOk result (λ turn. Asked B.takes_in B.gives bench.old worker brought turn bench.new) }
    ensures err { OnErr result (Reached B.takes_in bench.old worker brought bench.new) }
{
    hand_in(bench, worker, brought)?;
    bench.turn(worker)
}

/// Hands in, and asks what to do next; or stops the bench for want of memory, and has no answer.
fn serve<B: Bench>(bench: &mut B, worker: u32, brought: Brought<B::Made>) -> Due<B::Piece>
    ensures asked { IfSome result.turn (λ turn. Asked B.takes_in B.gives bench.old worker brought turn bench.new) }
    ensures stopped { IfNone result.turn (Halted B.takes_in B.halts bench.old worker brought bench.new) }
{
    match ask(bench, worker, brought) {
        Ok(turn) => Due::of(Some(turn)),
        Err(_) => {
            bench.stop();
            Due::of(None)
        }
    }
}

/// The bench, and how many workers sleep until there is something to do for them. A sleeper that was called and hasn't come yet counts
/// as called; all others count as asleep.
#[derive(Drop)]
pub(crate) struct Desk<B: Bench> {
    bench: B,
    asleep: u32,
    called: u32,
    looking: u32,
}

impl<B: Bench> Desk<B> {
    /// A bench beside which nobody sleeps.
    pub(crate) fn over(bench: B) -> Desk<B>
        ensures { result.bench ≡ bench }
    {
        Desk {
            bench,
            asleep: 0,
            called: 0,
            looking: 0,
        }
    }

    /// The bench, when all have left.
    pub(crate) fn into_bench(self) -> B
        ensures { result ≡ self.bench }
    {
        self.bench
    }

    /// How many sleepers to call after a booking: one for each piece for which none was called yet and nobody looks, as far as there are
    /// sleepers.
    fn call(&mut self) -> u32
        ensures bench { self.new.bench ≡ self.old.bench }
        ensures asleep { self.new.asleep + result ≡ self.old.asleep }
    {
        let awake = self.called.saturating_add(self.looking);
        let wanted = self.bench.spare().saturating_sub(awake);
        let calls = wanted.min(self.asleep);
        self.asleep -= calls;
        self.called = self.called.saturating_add(calls);
        calls
    }

    /// Whether a worker looks for whom there is something.
    fn has_news(&self) -> bool {
        self.looking > 0 && self.bench.spare() > 0
    }

    /// Serves a worker, and says how many sleepers to call, and whether to tell who looks: none and no where nothing was handed in.
    pub(crate) fn attend(
        &mut self,
        worker: u32,
        brought: Brought<B::Made>,
    ) -> (Due<B::Piece>, u32, bool)
        ensures asked { IfSome result.0.turn (λ turn. Asked B.takes_in B.gives self.old.bench worker brought turn self.new.bench) }
        ensures stopped { IfNone result.0.turn (Halted B.takes_in B.halts self.old.bench worker brought self.new.bench) }
    {
        let booked = brought.is_some();
        let due = serve(&mut self.bench, worker, brought);
        let calls = if booked { self.call() } else { 0 };
        let news = booked && self.has_news();
        (due, calls, news)
    }

    /// Whether somebody looks.
    pub(crate) fn somebody_looks(&self) -> bool {
        self.looking > 0
    }

    /// One worker more looks.
    pub(crate) fn begin_looking(&mut self)
        ensures { self.new.bench ≡ self.old.bench }
    {
        self.looking = self.looking.saturating_add(1);
    }

    /// A worker looks no more.
    pub(crate) fn end_looking(&mut self)
        ensures { self.new.bench ≡ self.old.bench }
    {
        self.looking = self.looking.saturating_sub(1);
    }

    /// One worker more sleeps.
    pub(crate) fn lie_down(&mut self)
        ensures { self.new.bench ≡ self.old.bench }
    {
        self.asleep = self.asleep.saturating_add(1);
    }

    /// A sleeper came back.
    pub(crate) fn get_up(&mut self)
        ensures { self.new.bench ≡ self.old.bench }
    {
        if self.called > 0 {
            self.called -= 1;
        } else {
            self.asleep = self.asleep.saturating_sub(1);
        }
    }
}
