//! The workers, each in its loop.

ghost use Rattle.std.specs.Prelude.{◌≡◌, ◌<◌, ◌≤◌, ◌+◌, ◌-◌};
ghost use Rattle.gate_workers.specs.Working.{GoesHome, AllGoHome};

use crate::hall::Hall;
use crate::worker::Idle;
use crate::{Bench, Gate};
use std::alloc::Global;
use std::sync::Wait;
use std::thread::{Threads, join};

/// Runs the workers 0, 1 and so on, so many of them, until each is over, and gives the bench back. Each of them was told by a bench that
/// all is over, or a bench was stopped.
///
/// Each worker goes round and round: under the lock it hands in what it made and asks for its turn; with a piece it lets the lock go,
/// passes the gate and works. While told to pause it sleeps until something is booked or the bench is stopped, and is woken for a piece
/// alone as far as the bench says how many there are. Where a call of the bench answers want of memory, that worker stops the bench
/// and is over. The workers run in threads of their own as far as threads can be had.
pub fn drive<R: Threads + Wait + Sync, B: Bench, G: Gate>(
    rt: &R,
    alloc: Global,
    bench: B,
    tool: &B::Tool,
    workers: u32,
    gate: &G,
) -> B
    requires { 1 ≤ workers }
    ensures { AllGoHome B.gives B.halts 0 workers }
{
    let hall = Hall::over(bench);
    work_from(rt, alloc, &hall, tool, gate, 0, workers);
    hall.into_bench()
}

/// Runs the workers from the one number to below the other, the halves of them side by side.
fn work_from<R: Threads + Wait + Sync, B: Bench, G: Gate>(
    rt: &R,
    alloc: Global,
    hall: &Hall<B>,
    tool: &B::Tool,
    gate: &G,
    from: u32,
    to: u32,
)
    requires { from < to }
    ensures { AllGoHome B.gives B.halts from to }
{
    if to - from == 1 {
        work_as(rt, alloc, hall, tool, gate, Idle::new(from));
        return;
    }
    let middle = from + (to - from) / 2;
    join(
        rt,
        || -> ()
            requires { from < middle }
            ensures { AllGoHome B.gives B.halts from middle }
        { work_from(rt, alloc, hall, tool, gate, from, middle) },
        || -> ()
            requires { middle < to }
            ensures { AllGoHome B.gives B.halts middle to }
        { work_from(rt, alloc, hall, tool, gate, middle, to) },
    );
}

/// Lets one worker ask, pass the gate and work, until there is no piece for it any more.
fn work_as<R: Wait, B: Bench, G: Gate>(
    rt: &R,
    alloc: Global,
    hall: &Hall<B>,
    tool: &B::Tool,
    gate: &G,
    worker: Idle<B>,
)
    ensures { GoesHome B.gives B.halts worker.number }
{
    let mut idle = worker;
    for _ in rt.forever() {
        let Some(busy) = idle.ask(rt, hall) else {
            return;
        };
        idle = busy.make(alloc, tool, gate);
    }
    unreachable!()
}
