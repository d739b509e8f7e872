//! Tokens as text.

ghost use Rattle.std.specs.Prelude.{◌≡◌, ◌++◌, OnOk, codes, decimal};
ghost use Rattle.move_rules.specs.Views.{token_of};
ghost use Rattle.walk_text.specs.Lines.{token_text};
ghost use Rattle.walk_text.specs.Telling.{kind_text, boxes_by, stacks_behind, way_text};

use crate::words::{push_numbered, push_value};
use move_rules::{Kind, Token};
use std::alloc::{AllocError, Global};
use token_stacks::{BoxStack, Stacks, push_boxes, push_key, push_work};

/// Appends a token in five words, its box stack whole or cut.
pub(crate) fn push_token(
    alloc: Global,
    text: &mut Vec<u8>,
    token: &Token,
    whole: bool,
) -> Result<(), AllocError>
    ensures { OnOk result (text.new.items ≡ text.old.items ++ token_text (boxes_by whole) (token_of token.now)) }
{
    push_kind(text, token.kind)?;
    push_place(alloc, text, token, whole)
}

/// Appends the first word of a token.
fn push_kind(text: &mut Vec<u8>, kind: Kind) -> Result<(), AllocError>
    ensures { OnOk result (text.new.items ≡ text.old.items ++ kind_text kind) }
{
    match kind {
        Kind::Ask => text.extend_from_slice(b"?"),
        Kind::Ans(value) => push_value(text, value),
    }
}

/// Appends the other four words, each behind a space.
fn push_place(
    alloc: Global,
    text: &mut Vec<u8>,
    token: &Token,
    whole: bool,
) -> Result<(), AllocError>
    ensures { OnOk result (text.new.items ≡ text.old.items ++ ((way_text token.now.up ++ decimal token.now.wire)
        ++ stacks_behind whole token.now.stacks)) }
{
    push_numbered(text, way(token.up), token.wire.into())?;
    push_stacks(alloc, text, &token.stacks, whole)
}

/// The word for a direction.
fn way(up: bool) -> &'static [u8]
    ensures { result.now ≡ way_text up }
{
    if up { b" up " } else { b" down " }
}

/// Appends both stacks, each behind a space.
fn push_stacks(
    alloc: Global,
    text: &mut Vec<u8>,
    stacks: &Stacks,
    whole: bool,
) -> Result<(), AllocError>
    ensures { OnOk result (text.new.items ≡ text.old.items ++ stacks_behind whole stacks.now) }
{
    text.extend_from_slice(b" ")?;
    push_work(alloc, text, stacks)?;
    text.extend_from_slice(b" ")?;
    push_boxes_by(alloc, text, stacks.boxes(), whole)
}

/// Appends a box stack.
fn push_boxes_by(
    alloc: Global,
    text: &mut Vec<u8>,
    boxes: &BoxStack,
    whole: bool,
) -> Result<(), AllocError>
    ensures { OnOk result (text.new.items ≡ text.old.items ++ boxes_by whole boxes.now) }
{
    if whole {
        push_key(alloc, text, boxes)
    } else {
        push_boxes(alloc, text, boxes)
    }
}
