//! The names that a module of Verilog may have.
//!
//! `is_module_name` tells whether a text may name a module, as `specs/Name.antt` defines it: a simple identifier of at most 255 bytes that
//! is no reserved word of Verilog or of SystemVerilog. `law_reserved` says that the words are enough: each that `verilog_tree` knows of
//! IEEE 1364-2005 is among them. That a tool takes such a name is left to the tool.
#![tactic(auto)]

mod laws;
mod name;

pub use laws::law_reserved;
pub use name::is_module_name;
