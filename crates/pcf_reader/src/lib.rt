//! Reads programs, and prints them.
//!
//! `read_program` takes the bytes of a program's text and answers the one tree that they stand for by the grammar, with the place of
//! each node, or else their very first fault (`ReadFault`). `print_term` and `print_ty` spell trees on one line, with parentheses
//! exactly where the grammar needs them. The laws say that bytes are the text of one tree or have one first fault, and never both, that
//! each tree that was read is within the limits, and that what is printed of it is read back. The grammar stands in
//! `specs/Grammar.antt`, the tokens in `specs/Spelling.antt`, faults in `specs/Text.antt`. Scope and types are left to the crate above.
#![tactic(auto)]

ghost use Rattle.std.specs.Prelude.{◌≡◌, ℕ, ◌≤◌, length, IfOk, IfErr, MatchResult, Ok, Err};
ghost use Rattle.std.specs.Str.{chars};
ghost use Rattle.pcf_values.specs.Named.{NamedTree};
ghost use Rattle.pcf_reader.specs.Machine.{want_expr, whole};
ghost use Rattle.pcf_reader.specs.Scan.{scan};
ghost use Rattle.pcf_reader.specs.Lexing.{lex, idle};
ghost use Rattle.pcf_reader.specs.Rest.{Gives};
ghost use Rattle.pcf_values.specs.Views.{named_of};
ghost use Rattle.pcf_reader.specs.Correct.{Text, FirstFault};
ghost use Rattle.pcf_reader.specs.Answered.{Faults, IsOnlyFault};
ghost use Rattle.pcf_reader.specs.declared.fault.ReadFault.{ReadFault as FaultType};
ghost use Rattle.pcf_values.specs.Most.{most_program_bytes};

mod descent;
mod fault;
mod laws;
mod lexer;
mod print;
mod reader;
mod terms;
mod token;
mod types;

pub use fault::ReadFault;
pub use laws::{
    law_bounded, law_example_texts, law_one_tree, law_text_one_fault, law_text_or_fault,
    law_text_read_back,
};
use pcf_values::Named;
use pcf_values::limits::PROGRAM_BYTES;
pub use print::{print_term, print_ty};
use std::alloc::Global;
use token::Token;

/// The program that a text of a lawful length is.
fn read_text(alloc: Global, text: &str) -> Result<Named, ReadFault>
    requires { length text.now ≤ most_program_bytes }
    ensures { Gives (λ t. Ok (named_of t)) (scan (lex (chars text.now) 0 idle) (want_expr whole) 0) result }
{
    let mut reader = reader::reader_at(text, 0, 0)?;
    let part = descent::expr(&mut reader, alloc, 0)?;
    match reader.token() {
        Token::End => Ok(Box::into_inner(part.tree)),
        _ => Err(ReadFault::Unexpected(reader.at())),
    }
}

/// The program that the bytes are, or their very first fault.
///
/// The text is read once from left to right, within a stack that does not grow with its length: at most
/// `limits::OPEN_PHRASES` phrases are open.
///
/// # Errors
///
/// The very first fault of the bytes, with its place: an offset in bytes from 0. Or it runs out of memory.
pub fn read_program(alloc: Global, bytes: &[u8]) -> Result<Named, ReadFault>
    // What is read is a program's text.
    ensures found { IfOk result (λ t. Text bytes.now (named_of t)) }
    // What is a program's text is read, unless memory runs out.
    ensures only { (t : NamedTree) → Text bytes.now t → MatchResult result (λ u. named_of u ≡ t) (λ f. f ≡ ReadFault.NoMemory) }
    // A fault that is answered is the very first one, unless memory runs out.
    ensures fault { IfErr result (λ f. Faults bytes.now f) }
    // Bytes with a first fault are refused with that one, unless memory runs out.
    ensures fault_only { (f : FaultType) → FirstFault bytes.now f → MatchResult result (λ t. ⊥) (λ g. IsOnlyFault f g) }
{
    if bytes.len() as u64 > PROGRAM_BYTES {
        return Err(ReadFault::TooLong);
    }
    match str::from_utf8(bytes) {
        Ok(text) => read_text(alloc, text),
        Err(e) => Err(ReadFault::NotText(e.valid_up_to() as u32)),
    }
}
