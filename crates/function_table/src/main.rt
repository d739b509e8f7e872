//! Prints what the function on its standard input, of type `nat -> nat`, is at 0 to 99.
#![tactic(auto)]

ghost use Rattle.std.specs.Prelude.{◌≡◌};

use function_runs::{Function, compile};
use pcf_values::Val;
use std::io;
use std::io::Read;

/// Reads the whole standard input, compiles its function once, and prints its table.
fn main(rt: HostRuntime) -> io::Result<()> {
    let mut bytes = Vec::new(rt.alloc());
    rt.stdin().read_to_end(&mut bytes)?;
    match compile(rt.alloc(), &bytes, 1) {
        Ok(mut function) => print_table(rt, &mut function),
        Err(_) => print!(rt; "refused\n"),
    }
}

/// Prints a line for each number: it, and what the function is at it.
fn print_table(rt: HostRuntime, function: &mut Function) -> io::Result<()>
    requires { function.old.1 ≡ 1 }
{
    for n in 0..100 {
        match function.call(rt.alloc(), &[n], 10_000)?.answer {
            Some(Val::Number(value)) => print!(rt; "{n} {value}\n"),
            Some(Val::Overflow) => print!(rt; "{n} overflow\n"),
            None => print!(rt; "{n} no value\n"),
        }?;
    }
    Ok(())
}
