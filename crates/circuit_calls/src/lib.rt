//! Two texts of Verilog that stand beside a circuit's module: one by which it is called more than once, and a bench.
//!
//! `push_call` appends the text of a second module, by which a circuit is called as often as is wanted, one call at a time: exactly the
//! definition `call_text` of `specs/CallText.antt`. `print_bench` answers the text of a bench that runs a program's circuit once and says
//! whether it answers what it should: exactly `bench_text` of `specs/BenchText.antt`. The name is that of the circuit's module. What a
//! tool makes of these texts is left to the tool: neither is a tree with a meaning, as the circuit's own module is.
#![tactic(auto)]

mod bench;
mod bench_parts;
mod call;
mod call_parts;
mod number;

pub use bench::print_bench;
pub use call::push_call;
