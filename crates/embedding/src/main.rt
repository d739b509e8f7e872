//! A program of somebody else that has the machine inside: it reads a PCF program from its standard input and prints the program's value
//! three times, each by another way into the machine.
//!
//! `alone` is the run of one worker in one call, `together` that of several workers, and `by hand` moves the least live token at each
//! turn. `IsTold` says what is printed, in the words of the machine's own contracts: what the text means by name, and where its first
//! fault is.
#![tactic(auto)]

mod by_hand;
mod lines;
mod place;

ghost use Rattle.std.specs.Prelude.{IfOk, string_bytes};
ghost use Rattle.embedding.specs.Lines.{IsTold};

use by_hand::hand_line;
use gate_workers::OpenGate;
use lines::{alone_line, together_line};
use std::alloc::{AllocError, Global};
use std::io;
use std::io::Read;
use std::sync::Wait;
use std::thread::Threads;

/// Reads the whole standard input, and prints what is told of it.
fn main(rt: HostRuntime) -> io::Result<()> {
    let alloc = rt.alloc();
    let mut bytes = Vec::new(alloc);
    rt.stdin().read_to_end(&mut bytes)?;
    let text = told(&rt, alloc, &bytes)?;
    print!(rt; "{text}")
}

/// What is printed for a text.
fn told<R: Threads + Wait + Sync>(rt: &R, alloc: Global, bytes: &[u8]) -> Result<String, AllocError>
    ensures { IfOk result (λ text. IsTold bytes.now (string_bytes text)) }
{
    let alone = alone_line(alloc, bytes)?;
    let together = together_line(rt, alloc, bytes, &OpenGate)?;
    let hand = hand_line(alloc, bytes)?;
    format!(in alloc; "{alone}{together}{hand}")
}
