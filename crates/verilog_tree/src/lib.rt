//! Trees for the constructs of Verilog that a circuit's text uses: what they mean, which of them are modules, and their text.
//!
//! The meaning is that of IEEE 1364-2005 on these constructs: widths, values, assignments that cut, blocks that settle, one edge of the
//! clock. Each rule names its clause. A reader has to believe it, as a reader believes the definition of a net. The laws show what the
//! definitions come to on a small module, that a statement leaves alone what it doesn't assign to, that in a module each name is what its
//! item declares, and that what has settled stays. The types are the same trees as a program holds them. The calls `push_..` append the
//! text of such a tree, exactly as `specs/Print.antt` defines it. That a tool follows the standard is left to the tool. Other crates use
//! the lemmas of `proofs/` too: two scopes and two stores that agree on some names go on doing so.
#![tactic(auto)]

mod blocks;
mod items;
mod laws;
mod print;
mod tree;

pub use items::push_items;
pub use laws::{law_example_module, law_settled, law_spared, law_tree_declares, law_tree_settles};
pub use print::push_expression;
pub use tree::{
    Cases, Comparison, Connective, Direction, Expression, Extent, Item, Operation, Place, Range,
    Remark, Statement,
};
