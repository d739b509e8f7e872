//! Where workers meet: the lock, and the call that wakes those who sleep beside it.

ghost use Rattle.std.specs.Prelude.{◌≡◌, IfSome, IfNone};
ghost use Rattle.gate_workers.specs.Working.{Given, TakenIn, Stopped};

use crate::desk::{Brought, Desk};
use crate::worker::Due;
use crate::{Bench, Turn};
use std::hint::spin_loop;
use std::sync::atomic::{AtomicU64, Ordering};
use std::sync::{Condvar, Mutex, MutexGuard, Wait};

/// How often a worker looks whether the lock is free before it sleeps beside it. A turn holds the lock for a microsecond or two, and to be
/// woken takes a sleeper many times as long.
const LOOKS: u32 = 1000;

/// How often an idle worker looks whether something was booked before it sleeps.
const GLANCES: u32 = 2048;

pub(crate) struct Hall<B: Bench> {
    desk: Mutex<Desk<B>>,
    booked: Condvar,
    /// Changes where something is booked that the worker may have who looks.
    news: AtomicU64,
}

impl<B: Bench> Hall<B> {
    /// A hall with this bench, in which nobody sleeps.
    pub(crate) fn over(bench: B) -> Hall<B> {
        Hall {
            desk: Mutex::new(Desk::over(bench)),
            booked: Condvar::new(),
            news: AtomicU64::new(0),
        }
    }

    /// The bench, when all have left.
    pub(crate) fn into_bench(self) -> B {
        let Hall {
            desk,
            booked: _,
            news: _,
        } = self;
        desk.into_inner().into_bench()
    }
}

/// Takes the lock: it looks for a while whether it is free, and sleeps until it is.
fn enter<'h, R: Wait, B: Bench>(rt: &R, hall: &'h Hall<B>) -> MutexGuard<'h, Desk<B>> {
    for _ in 0..LOOKS {
        if let Some(desk) = hall.desk.try_lock() {
            return desk;
        }
        spin_loop();
    }
    hall.desk.lock(rt)
}

/// Wakes so many sleepers.
fn wake<B: Bench>(hall: &Hall<B>, calls: u32) {
    for _ in 0..calls {
        hall.booked.notify_one();
    }
}

/// Lets the lock go and sleeps until it is called.
fn sleep<R: Wait, B: Bench>(rt: &R, hall: &Hall<B>, mut desk: MutexGuard<'_, Desk<B>>) {
    desk.lie_down();
    let mut desk = hall.booked.wait(rt, desk);
    desk.get_up();
}

/// Tells the worker who looks that something was booked.
fn tell<B: Bench>(hall: &Hall<B>, news: bool) {
    if news {
        hall.news.fetch_add(1, Ordering::SeqCst);
    }
}

/// Whether something is booked that is told, within so many looks.
fn glance<B: Bench>(hall: &Hall<B>, seen: u64) -> bool {
    for _ in 0..GLANCES {
        if hall.news.load(Ordering::SeqCst) != seen {
            return true;
        }
        spin_loop();
    }
    false
}

/// Lets the lock go and looks whether something is booked. Answers whether it looked in vain.
fn look<R: Wait, B: Bench>(rt: &R, hall: &Hall<B>, mut desk: MutexGuard<'_, Desk<B>>) -> bool {
    desk.begin_looking();
    let seen = hall.news.load(Ordering::SeqCst);
    drop(desk);
    let found = glance(hall, seen);
    let mut desk = enter(rt, hall);
    desk.end_looking();
    !found
}

/// Wakes whom there is something for, and lets the lock go; in a pause it looks, if nobody does and it didn't look in vain just before, or
/// sleeps; and the last to be served wakes all. Answers whether it looked in vain.
fn leave<R: Wait, B: Bench>(
    rt: &R,
    hall: &Hall<B>,
    desk: MutexGuard<'_, Desk<B>>,
    calls: u32,
    news: bool,
    due: &Due<B::Piece>,
    tired: bool,
) -> bool {
    match due.told() {
        Some(Turn::Piece(_)) => {
            drop(desk);
            tell(hall, news);
            wake(hall, calls);
            false
        }
        Some(Turn::Pause) => {
            tell(hall, news);
            wake(hall, calls);
            if tired || desk.somebody_looks() {
                sleep(rt, hall, desk);
                false
            } else {
                look(rt, hall, desk)
            }
        }
        Some(Turn::Over) | None => {
            drop(desk);
            tell(hall, true);
            hall.booked.notify_all();
            false
        }
    }
}

/// One turn of a worker at the desk: what is brought is handed in, and the turn asked for; after a pause the worker has looked or slept.
/// No answer says that the bench was stopped for want of memory. Beside it stands whether it looked in vain.
pub(crate) fn attend<R: Wait, B: Bench>(
    rt: &R,
    hall: &Hall<B>,
    worker: u32,
    brought: Brought<B::Made>,
    tired: bool,
) -> (Due<B::Piece>, bool)
    ensures taken_in { IfSome result.0.turn (λ _. TakenIn B.takes_in worker brought) }
    ensures given { IfSome result.0.turn (Given B.gives worker) }
    ensures stopped { IfNone result.0.turn (Stopped B.halts) }
{
    let mut desk = enter(rt, hall);
    let (due, calls, news) = desk.attend(worker, brought);
    let tired = leave(rt, hall, desk, calls, news, &due, tired);
    (due, tired)
}
