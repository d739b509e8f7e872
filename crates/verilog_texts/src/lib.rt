//! What the text of a tree of Verilog tells of the tree, and what it doesn't. Laws alone, no code.
//!
//! Trees that print alike needn't be one tree: a parameter and a vector, and a bit and a word of a memory, are told apart by declarations
//! alone; statements one after the other aren't told apart by how they are grouped; and a number of more than 64 digits has the text of
//! another, so that no module has one (`law_example_same_texts`). But they mean one thing. Of an expression it is so: where the names in it
//! are declared and no number has more digits than its text, its text is that of no other (`law_expression`). Two statements that print
//! alike do the same (`law_block`), and two modules that print alike have one name and the same edges (`law_module`).
//!
//! One thing more is asked of a module than that it is well formed: that the width of a number, as 8 in 8'd5, has no more than 64 digits.
//! Without it the law is false: `law_example_same_texts` has two modules that print alike and have other edges.
#![tactic(auto)]

mod laws;

pub use laws::{law_block, law_example_same_texts, law_expression, law_module};
