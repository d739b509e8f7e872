//! Prints the value of the PCF program on its standard input.
#![tactic(auto)]

use pcf_values::Val;
use program_runs::{Alone, Calling, NoRun, run_text};
use std::alloc::AllocError;
use std::io;
use std::io::Read;

/// Reads the whole standard input, runs it by name within 10,000 moves, and prints what it comes to.
fn main(rt: HostRuntime) -> io::Result<()> {
    let mut bytes = Vec::new(rt.alloc());
    rt.stdin().read_to_end(&mut bytes)?;
    match run_text(rt.alloc(), &bytes, 10_000, Calling::ByName, &Alone) {
        Ok(run) => match run.answer {
            Some(Val::Number(value)) => print!(rt; "{value}\n"),
            Some(Val::Overflow) => print!(rt; "too large\n"),
            None => print!(rt; "no value\n"),
        },
        Err(NoRun::Fault(_)) => print!(rt; "refused\n"),
        Err(NoRun::Memory) => Err(AllocError.into()),
    }
}
