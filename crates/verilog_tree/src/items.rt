//! The text of what a module consists of.

ghost use Rattle.std.specs.Prelude.{◌≡◌, ◌++◌, OnOk, codes, decimal, map, false};
ghost use Rattle.verilog_tree.specs.Names.{text_of};
ghost use Rattle.verilog_tree.specs.Print.{width_text, bits_text, item_text, items_text, expr_text};
ghost use Rattle.verilog_tree.specs.Print.{size_text, stmt_text};
ghost use Rattle.verilog_tree.specs.Views.{expr_of, size_of, stmt_of, width_of, item_of};

use crate::blocks::push_statement;
use crate::print::{push_expression, push_extent, push_name, push_number, push_wide};
use crate::tree::{Expression, Extent, Item, Margin, Range, Statement};
use std::alloc::AllocError;

/// Appends a declared width.
fn push_range(text: &mut Vec<u8>, range: &Range) -> Result<(), AllocError>
    ensures { OnOk result (text.new.items ≡ text.old.items ++ width_text (width_of range.now)) }
{
    match range {
        Range::One => Ok(()),
        Range::UpTo(high) => {
            text.extend_from_slice(b"[")?;
            push_extent(text, high)?;
            text.extend_from_slice(b":0] ")
        }
        Range::Wide(wide) => {
            text.extend_from_slice(b"[")?;
            push_extent(text, wide)?;
            text.extend_from_slice(b"-1:0] ")
        }
    }
}

/// Appends how many bits a constant has.
fn push_bits(text: &mut Vec<u8>, range: &Range) -> Result<(), AllocError>
    ensures { OnOk result (text.new.items ≡ text.old.items ++ bits_text (width_of range.now)) }
{
    match range {
        Range::One => text.extend_from_slice(b"1"),
        Range::UpTo(Extent::Count(n)) => push_wide(text, u128::from(*n) + 1),
        Range::Wide(Extent::Count(n)) => push_number(text, *n),
        _ => text.extend_from_slice(b"32"),
    }
}

/// Appends a comment.
fn push_note(text: &mut Vec<u8>, words: &[u8]) -> Result<(), AllocError>
    ensures { OnOk result (text.new.items ≡ text.old.items ++ (codes "  // " ++ (codes (text_of words.now) ++ codes "\n"))) }
{
    text.extend_from_slice(b"  // ")?;
    push_name(text, words)?;
    text.extend_from_slice(b"\n")
}

/// Appends a number with a name.
fn push_size(text: &mut Vec<u8>, name: &[u8], n: u64) -> Result<(), AllocError>
    ensures { OnOk result (text.new.items ≡ text.old.items
        ++ (codes "  localparam " ++ (codes (text_of name.now) ++ (codes " = " ++ (decimal n ++ codes ";\n"))))) }
{
    text.extend_from_slice(b"  localparam ")?;
    push_name(text, name)?;
    text.extend_from_slice(b" = ")?;
    push_number(text, n)?;
    text.extend_from_slice(b";\n")
}

/// Appends a number with its width.
fn push_bare(text: &mut Vec<u8>, range: &Range, n: u128) -> Result<(), AllocError>
    ensures { OnOk result (text.new.items ≡ text.old.items
        ++ (codes " = " ++ (bits_text (width_of range.now) ++ (codes "'d" ++ (decimal n ++ codes ";\n"))))) }
{
    text.extend_from_slice(b" = ")?;
    push_bits(text, range)?;
    text.extend_from_slice(b"'d")?;
    push_wide(text, n)?;
    text.extend_from_slice(b";\n")
}

/// Appends a word, a declared width and a name.
fn push_declared(
    text: &mut Vec<u8>,
    word: &[u8],
    range: &Range,
    name: &[u8],
) -> Result<(), AllocError>
    ensures { OnOk result (text.new.items ≡ text.old.items
        ++ (word.now ++ (width_text (width_of range.now) ++ codes (text_of name.now)))) }
{
    text.extend_from_slice(word)?;
    push_range(text, range)?;
    push_name(text, name)
}

/// Appends the end of a memory's declaration: how many words it has.
fn push_words(text: &mut Vec<u8>, words: &Extent) -> Result<(), AllocError>
    ensures { OnOk result (text.new.items ≡ text.old.items ++ (codes " [0:" ++ (size_text (size_of words.now) ++ codes "-1];\n"))) }
{
    text.extend_from_slice(b" [0:")?;
    push_extent(text, words)?;
    text.extend_from_slice(b"-1];\n")
}

/// Appends the end of a wire's declaration: what drives it.
fn push_driver(text: &mut Vec<u8>, e: &Expression) -> Result<(), AllocError>
    ensures { OnOk result (text.new.items ≡ text.old.items ++ (codes " = " ++ (expr_text false (expr_of e.now) ++ codes ";\n"))) }
{
    text.extend_from_slice(b" = ")?;
    push_expression(text, false, e)?;
    text.extend_from_slice(b";\n")
}

/// Appends a block with its first line and this sign of assignment.
fn push_always(
    text: &mut Vec<u8>,
    first: &[u8],
    sign: &[u8],
    body: &Statement,
) -> Result<(), AllocError>
    ensures { OnOk result (text.new.items ≡ text.old.items
        ++ (first.now ++ (stmt_text sign.now 2 (stmt_of body.now) ++ codes "  end\n"))) }
{
    text.extend_from_slice(first)?;
    push_statement(
        text,
        sign,
        &Margin::Within(&Margin::Within(&Margin::Edge)),
        body,
    )?;
    text.extend_from_slice(b"  end\n")
}

/// Appends an item of a module's body. Ports have their own list.
fn push_item(text: &mut Vec<u8>, item: &Item) -> Result<(), AllocError>
    ensures { OnOk result (text.new.items ≡ text.old.items ++ item_text (item_of item.now)) }
{
    match item {
        Item::Note(words) => push_note(text, words),
        Item::Gap => text.extend_from_slice(b"\n"),
        Item::Size(name, n) => push_size(text, name, *n),
        Item::Constant(range, name, n) => {
            push_declared(text, b"  localparam ", range, name)?;
            push_bare(text, range, *n)
        }
        Item::Input(_, _) => Ok(()),
        Item::Output(_, _) => Ok(()),
        Item::Reg(range, name) => {
            push_declared(text, b"  reg ", range, name)?;
            text.extend_from_slice(b";\n")
        }
        Item::Memory(range, name, words) => {
            push_declared(text, b"  reg ", range, name)?;
            push_words(text, words)
        }
        Item::Wire(range, name, e) => {
            push_declared(text, b"  wire ", range, name)?;
            push_driver(text, e)
        }
        Item::Settles(body) => push_always(text, b"  always @* begin\n", b" = ", body),
        Item::Clocked(body) => push_always(text, b"  always @(posedge clk) begin\n", b" <= ", body),
    }
}

/// Appends items of a module's body.
///
/// # Errors
///
/// It runs out of memory; what is appended by then says nothing.
pub fn push_items(text: &mut Vec<u8>, items: &[Item]) -> Result<(), AllocError>
    ensures { OnOk result (text.new.items ≡ text.old.items ++ items_text (map item_of items.now)) }
{
    for item in items {
        push_item(text, item)?;
    }
    Ok(())
}
