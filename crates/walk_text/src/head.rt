//! Where a trace begins: the live tokens and the open entries of a state.

ghost use Rattle.std.specs.Prelude.{◌≡◌, ◌<◌, ◌++◌, ℕ, Some, OnOk, codes, map};
ghost use Rattle.std.specs.FinMap.{entries, get};
ghost use Rattle.fork_join.specs.Nested.{entry_of};
ghost use Rattle.fork_join.specs.Listed.{open_of};
ghost use Rattle.interleave_laws.specs.Maps.{seen};
ghost use Rattle.interleave_laws.specs.Tickets.{IsLive};
ghost use Rattle.move_rules.specs.Views.{token_of};
ghost use Rattle.walk_text.specs.Lines.{token_text, then_word};
ghost use Rattle.token_stacks.specs.Texts.{key_text};
ghost use Rattle.walk_text.specs.Traces.{live_line, live_lines, sides_text, open_line, open_lines, head_text};

use crate::token::push_token;
use crate::words::{push_numbered, push_value};
use fork_join::{Kept, Open};
use interleave_core::Core;
use move_rules::Token;
use std::alloc::{AllocError, Global};
use token_stacks::push_key;

/// Appends the live tokens and the open entries of a state.
pub(crate) fn push_head(alloc: Global, text: &mut Vec<u8>, core: &Core) -> Result<(), AllocError>
    requires low { (i : ℕ) → IsLive core.now i → i < core.now.next }
    ensures { OnOk result (text.new.items ≡ text.old.items ++ head_text core.now) }
{
    push_live(alloc, text, core)?;
    push_open(alloc, text, core)
}

/// Appends the live tokens, in the order of their tickets.
fn push_live(alloc: Global, text: &mut Vec<u8>, core: &Core) -> Result<(), AllocError>
    requires low { (i : ℕ) → IsLive core.now i → i < core.now.next }
    ensures { OnOk result (text.new.items ≡ text.old.items ++ live_lines (seen core.now).tokens 0 core.now.next) }
{
    let mut next = core.least_live();
    while let Some(ticket) = next {
        push_live_of(alloc, text, core, ticket)?;
        next = core.next_live(ticket);
    }
    Ok(())
}

/// Appends the line of a ticket, if it is live.
fn push_live_of(
    alloc: Global,
    text: &mut Vec<u8>,
    core: &Core,
    ticket: u32,
) -> Result<(), AllocError>
    ensures { OnOk result (text.new.items ≡ text.old.items ++ live_line ticket (get core.now.tokens ticket)) }
{
    match core.token(ticket) {
        Some(token) => push_live_line(alloc, text, ticket, token),
        None => Ok(()),
    }
}

/// Appends the line of a live token.
fn push_live_line(
    alloc: Global,
    text: &mut Vec<u8>,
    ticket: u32,
    token: &Token,
) -> Result<(), AllocError>
    ensures { OnOk result (text.new.items ≡ text.old.items ++ live_line ticket (Some (token_of token.now))) }
{
    push_numbered(text, b"live ", ticket.into())?;
    text.extend_from_slice(b" ")?;
    push_token(alloc, text, token, true)?;
    text.extend_from_slice(b"\n")
}

/// Appends the open entries, in the order of their keys.
fn push_open(alloc: Global, text: &mut Vec<u8>, core: &Core) -> Result<(), AllocError>
    ensures { OnOk result (text.new.items ≡ text.old.items ++ open_lines (entries core.now.entries)) }
{
    let list = core.open_entries()?;
    push_entries(alloc, text, &list)
}

/// Appends the lines of entries.
fn push_entries(alloc: Global, text: &mut Vec<u8>, list: &[Open<'_>]) -> Result<(), AllocError>
    ensures { OnOk result (text.new.items ≡ text.old.items ++ open_lines (map open_of list.now)) }
{
    for entry in list {
        push_entry(alloc, text, entry)?;
    }
    Ok(())
}

/// Appends the line of an entry.
fn push_entry(alloc: Global, text: &mut Vec<u8>, entry: &Open<'_>) -> Result<(), AllocError>
    ensures { OnOk result (text.new.items ≡ text.old.items ++ open_line (open_of entry.now).0 (open_of entry.now).1) }
{
    push_numbered(text, b"open ", entry.node.into())?;
    text.extend_from_slice(b" ")?;
    push_key(alloc, text, entry.boxes)?;
    push_sides(text, entry.kept)
}

/// Appends the values that are kept in an entry, to the end of the line.
fn push_sides(text: &mut Vec<u8>, kept: Kept) -> Result<(), AllocError>
    ensures { OnOk result (text.new.items ≡ text.old.items ++ (codes " " ++ (sides_text (entry_of kept) ++ codes "\n"))) }
{
    match kept {
        Kept::Nothing => text.extend_from_slice(b" - -\n"),
        Kept::Left(value) => {
            text.extend_from_slice(b" ")?;
            push_value(text, value)?;
            text.extend_from_slice(b" -\n")
        }
        Kept::Right(value) => {
            text.extend_from_slice(b" - ")?;
            push_value(text, value)?;
            text.extend_from_slice(b"\n")
        }
    }
}
