//! Names, numbers, sizes and widths.

ghost use Rattle.std.specs.Prelude.{◌≡◌, ◌++◌, OnOk, codes, decimal, false};
ghost use Rattle.verilog_tree.specs.Names.{text_of};
ghost use Rattle.verilog_tree.specs.Print.{size_text, width_text};
ghost use Rattle.verilog_tree.specs.Views.{size_of, width_of};

use itoa::Buffer;
use std::alloc::AllocError;
use verilog_tree::{Expression, Extent, Range, push_expression};

/// Appends a word and a number.
pub(crate) fn push_number(text: &mut Vec<u8>, word: &[u8], n: u64) -> Result<(), AllocError>
    ensures { OnOk result (text.new.items ≡ text.old.items ++ (word.now ++ decimal n)) }
{
    let mut buffer = Buffer::new();
    text.extend_from_slice(word)?;
    text.extend_from_slice(buffer.format(n).as_bytes())
}

/// Appends a name.
pub(crate) fn push_name(text: &mut Vec<u8>, name: &[u8]) -> Result<(), AllocError>
    ensures { OnOk result (text.new.items ≡ text.old.items ++ codes (text_of name.now)) }
{
    push_expression(text, false, &Expression::Name(name))
}

/// Appends a size.
#[cycle(extent)]
fn push_extent(text: &mut Vec<u8>, extent: &Extent) -> Result<(), AllocError>
    ensures { OnOk result (text.new.items ≡ text.old.items ++ size_text (size_of extent.now)) }
{
    match extent {
        Extent::Count(n) => push_number(text, b"", *n),
        Extent::Named(x) => push_name(text, x),
        Extent::More(a, b) => push_both(text, a, b"+", b),
        Extent::Less(a, b) => push_both(text, a, b"-", b),
    }
}

/// Appends two sizes with a sign between them, in parentheses.
#[cycle(extent)]
fn push_both(text: &mut Vec<u8>, a: &Extent, sign: &[u8], b: &Extent) -> Result<(), AllocError>
    ensures { OnOk result (text.new.items ≡ text.old.items
        ++ (codes "(" ++ (size_text (size_of a.now) ++ (sign.now ++ (size_text (size_of b.now) ++ codes ")"))))) }
{
    text.extend_from_slice(b"(")?;
    push_extent(text, a)?;
    text.extend_from_slice(sign)?;
    push_extent(text, b)?;
    text.extend_from_slice(b")")
}

/// Appends a declared width.
pub(crate) fn push_range(text: &mut Vec<u8>, range: &Range) -> Result<(), AllocError>
    ensures { OnOk result (text.new.items ≡ text.old.items ++ width_text (width_of range.now)) }
{
    match range {
        Range::One => Ok(()),
        Range::UpTo(high) => {
            text.extend_from_slice(b"[")?;
            push_extent(text, high)?;
            text.extend_from_slice(b":0] ")
        }
        Range::Wide(wide) => {
            text.extend_from_slice(b"[")?;
            push_extent(text, wide)?;
            text.extend_from_slice(b"-1:0] ")
        }
    }
}
