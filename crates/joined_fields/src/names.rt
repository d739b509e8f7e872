//! Names.

ghost use Rattle.std.specs.Prelude.{◌≡◌, ◌++◌, OnOk, IfOk, codes, decimal};
ghost use Rattle.verilog_tree.specs.Names.{text_of};
ghost use Rattle.joined_module.specs.Names.{numbered, joined_name};
ghost use Rattle.joined_fields.specs.Views.{group_name};

use bumpalo::Bump;
use itoa::Buffer;
use joined_fixed::put_all;
use std::alloc::{AllocError, Global};

/// Names of which there are as many as the table says.
#[derive(Clone, Copy)]
pub enum Group {
    /// The ports of arguments.
    Arg,
    /// The registers that hold them.
    Held,
    /// The signatures.
    Sig,
    /// The boxes.
    Boxed,
    /// The words of the cell that was read.
    Word,
    /// The innermost fork's boxes.
    ForkBox,
    /// The signatures after the row.
    NextSig,
    /// The boxes after it.
    NextBox,
    /// The boxes of a fork that it opens.
    OpenBox,
    /// The words of its new cell.
    NewWord,
}

/// Appends a name.
#[tactic(auto, using(verilog_tree::proofs::Names::codes_more))]
fn push_name(text: &mut Vec<u8>, name: &[u8]) -> Result<(), AllocError>
    ensures { OnOk result (text.new.items ≡ text.old.items ++ codes (text_of name.now)) }
{
    for byte in name {
        text.push(*byte)?;
    }
    Ok(())
}

/// Appends a number.
fn push_number(text: &mut Vec<u8>, n: u64) -> Result<(), AllocError>
    ensures { OnOk result (text.new.items ≡ text.old.items ++ decimal n) }
{
    let mut buffer = Buffer::new();
    text.extend_from_slice(buffer.format(n).as_bytes())
}

/// A name with a number behind it.
fn numbered<'a>(alloc: Global, bump: &'a Bump, front: &[u8], n: u64) -> Result<&'a [u8], AllocError>
    ensures { IfOk result (λ r. text_of r.now ≡ numbered (text_of front.now) n) }
{
    let mut text = Vec::new(alloc);
    push_name(&mut text, front)?;
    push_number(&mut text, n)?;
    let kept = put_all(bump, &text)?;
    Ok(kept)
}

/// One name behind another.
///
/// # Errors
///
/// `AllocError` where there is no memory for it.
pub fn joined<'a>(
    alloc: Global,
    bump: &'a Bump,
    front: &[u8],
    name: &[u8],
) -> Result<&'a [u8], AllocError>
    ensures { IfOk result (λ r. text_of r.now ≡ joined_name (text_of front.now) (text_of name.now)) }
{
    let mut text = Vec::new(alloc);
    push_name(&mut text, front)?;
    push_name(&mut text, name)?;
    let kept = put_all(bump, &text)?;
    Ok(kept)
}

/// A name of a group.
///
/// # Errors
///
/// `AllocError` where there is no memory for it.
pub fn grouped<'a>(
    alloc: Global,
    bump: &'a Bump,
    group: Group,
    n: u64,
) -> Result<&'a [u8], AllocError>
    ensures { IfOk result (λ r. text_of r.now ≡ group_name group n) }
{
    match group {
        Group::Arg => numbered(alloc, bump, b"arg", n),
        Group::Held => numbered(alloc, bump, b"held", n),
        Group::Sig => numbered(alloc, bump, b"signature", n),
        Group::Boxed => numbered(alloc, bump, b"box", n),
        Group::Word => numbered(alloc, bump, b"word", n),
        Group::ForkBox => numbered(alloc, bump, b"fork_box", n),
        Group::NextSig => numbered(alloc, bump, b"next_signature", n),
        Group::NextBox => numbered(alloc, bump, b"next_box", n),
        Group::OpenBox => numbered(alloc, bump, b"open_box", n),
        Group::NewWord => numbered(alloc, bump, b"new_word", n),
    }
}
