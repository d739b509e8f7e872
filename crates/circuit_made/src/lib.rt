//! The circuit of a net: the table of its joined rows, the tree of the module of that table, and its text of Verilog.
//!
//! `make_table` searches the rows, leaves those out that are refused, and takes the empty table where the whole is refused, so that it
//! answers for each net a table of which all that `module_runs` asks is true. `circuit_items` makes the module of it: the circuit of the
//! function whose net it is, as `IsCircuit` of `circuit_meaning` says; that a run never comes to a pair without a row is no part of the
//! contract: the module then says `full`. `circuit_needs` counts along the rows how many cells and forks it needs. `print_circuit` answers
//! its text, with this name of the module: exactly the definition `circuit_text` of `specs/CircuitText.antt`, a line of comment and the
//! text of the module's tree between directives. The tree is made whole and then printed. That a tool takes the text for its tree, and
//! follows the standard, is left to the tool.
#![tactic(auto)]

mod circuit;
mod needs;
mod print;
mod table;
mod text;
mod words;

pub use circuit::circuit_items;
pub use needs::circuit_needs;
pub use print::{Ports, print_circuit};
pub use text::push_module;
