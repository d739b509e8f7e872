//! Numbers and values.

ghost use Rattle.std.specs.Prelude.{◌≡◌, ◌++◌, OnOk, decimal};
ghost use Rattle.walk_text.specs.Lines.{val_text};

use itoa::Buffer;
use pcf_values::Val;
use std::alloc::AllocError;

/// Appends a number in decimal.
pub(crate) fn push_number(text: &mut Vec<u8>, n: u64) -> Result<(), AllocError>
    ensures { OnOk result (text.new.items ≡ text.old.items ++ decimal n) }
{
    let mut buffer = Buffer::new();
    text.extend_from_slice(buffer.format(n).as_bytes())
}

/// Appends a word and a number.
pub(crate) fn push_numbered(text: &mut Vec<u8>, word: &[u8], n: u64) -> Result<(), AllocError>
    ensures { OnOk result (text.new.items ≡ text.old.items ++ (word.now ++ decimal n)) }
{
    text.extend_from_slice(word)?;
    push_number(text, n)
}

/// Appends a value.
pub(crate) fn push_value(text: &mut Vec<u8>, value: Val) -> Result<(), AllocError>
    ensures { OnOk result (text.new.items ≡ text.old.items ++ val_text value) }
{
    match value {
        Val::Number(n) => push_number(text, n),
        Val::Overflow => text.extend_from_slice(b"overflow"),
    }
}
