//! The line of a step.

ghost use Rattle.std.specs.Prelude.{◌≡◌, ◌++◌, OnOk, codes};
ghost use Rattle.pcf_values.specs.Views.{named_of};
ghost use Rattle.pcf_reader.specs.Printed.{term_text};
ghost use Rattle.step_text.specs.Lines.{operator_rule, rule_text, spaced, marked_line, step_line, asked, line_in};

use crate::mark::lead;
use itoa::Buffer;
use pcf_reader::print_term;
use pcf_values::{Named, Operator, Raw, Side};
use std::alloc::{AllocError, Global};

/// The name of an operator's rule.
fn operator_rule(operator: Operator) -> &'static [u8]
    ensures { result.now ≡ operator_rule operator }
{
    match operator {
        Operator::Plus => b"plus",
        Operator::Minus => b"minus",
        Operator::Times => b"times",
    }
}

/// The name of the rule that rewrites the part.
fn rule_of(part: &Named) -> &'static [u8]
    ensures { result.now ≡ rule_text (named_of part.now) }
{
    match &part.raw {
        Raw::Fix(_, _, _) => b"fix",
        Raw::App(_, _) => b"fun",
        Raw::Proj(Side::Left, _) => b"fst",
        Raw::Proj(Side::Right, _) => b"snd",
        Raw::Succ(_) => b"succ",
        Raw::Pred(_) => b"pred",
        Raw::Binary(operator, _, _) => operator_rule(*operator),
        Raw::Ifz(_, _, _) => b"ifz",
        Raw::Number(_) | Raw::Name(_) | Raw::Fun(_, _, _) | Raw::Pair(_, _) => b"",
    }
}

/// Appends a number and a space.
pub(crate) fn push_spaced(text: &mut Vec<u8>, n: u64) -> Result<(), AllocError>
    ensures { OnOk result (text.new.items ≡ text.old.items ++ spaced n) }
{
    let mut buffer = Buffer::new();
    text.extend_from_slice(buffer.format(n).as_bytes())?;
    text.extend_from_slice(b" ")
}

/// Appends a term and a line feed.
pub(crate) fn push_term_line(
    alloc: Global,
    text: &mut Vec<u8>,
    term: &Named,
) -> Result<(), AllocError>
    ensures { OnOk result (text.new.items ≡ text.old.items ++ (term_text (named_of term.now) ++ codes "\n")) }
{
    let printed = print_term(alloc, term)?;
    text.extend_from_slice(&printed)?;
    text.extend_from_slice(b"\n")
}

/// Appends the beginning of a step's line: its place and its rule.
fn push_rule(text: &mut Vec<u8>, k: u64, part: &Named) -> Result<(), AllocError>
    ensures { OnOk result (text.new.items ≡ text.old.items ++
        (codes "step " ++ (spaced k ++ (rule_text (named_of part.now) ++ codes " ")))) }
{
    text.extend_from_slice(b"step ")?;
    push_spaced(text, k)?;
    text.extend_from_slice(rule_of(part))?;
    text.extend_from_slice(b" ")
}

/// Puts the text of a term behind what is there.
fn push_printed(alloc: Global, out: &mut Vec<u8>, term: &Named) -> Result<(), AllocError>
    ensures { OnOk result (out.new.items ≡ out.old.items ++ term_text (named_of term.now)) }
{
    let printed = print_term(alloc, term)?;
    out.extend_from_slice(&printed)
}

/// Appends the line of step k of a term, whose part is rewritten and stands behind this text.
fn push_marked(
    alloc: Global,
    text: &mut Vec<u8>,
    k: u64,
    term: &Named,
    part: &Named,
    before: &mut Vec<u8>,
) -> Result<(), AllocError>
    ensures { OnOk result (text.new.items ≡ text.old.items ++
        marked_line k (named_of term.now) (before.old.items, named_of part.now)) }
{
    push_rule(text, k, part)?;
    push_spaced(text, before.len() as u64)?;
    push_printed(alloc, before, part)?;
    push_spaced(text, before.len() as u64)?;
    push_term_line(alloc, text, term)
}

/// Appends the line of step k of a term.
fn push_step(alloc: Global, text: &mut Vec<u8>, k: u64, term: &Named) -> Result<(), AllocError>
    ensures { OnOk result (text.new.items ≡ text.old.items ++ step_line k (named_of term.now)) }
{
    let mut before = Vec::new(alloc);
    match lead(alloc, &mut before, term)? {
        Some(part) => push_marked(alloc, text, k, term, part, &mut before),
        None => Ok(()),
    }
}

/// Step k is one of so many from a place on.
fn is_asked(from: u64, most: u64, k: u64) -> bool
    ensures { result ≡ asked from most k }
{
    if from <= k { k - from < most } else { false }
}

/// Appends the line of step k of a term, where it is asked for.
pub(crate) fn push_asked(
    alloc: Global,
    text: &mut Vec<u8>,
    from: u64,
    most: u64,
    k: u64,
    term: &Named,
) -> Result<(), AllocError>
    ensures { OnOk result (text.new.items ≡ text.old.items ++ line_in from most k (named_of term.now)) }
{
    if is_asked(from, most, k) {
        push_step(alloc, text, k, term)
    } else {
        Ok(())
    }
}
