//! The line of one move.

ghost use Rattle.std.specs.Prelude.{◌≡◌, ◌++◌, [], Some, None, false, OnOk, IfOk, IsSome, IsTrue, codes, if◌then◌else◌};
ghost use Rattle.std.specs.FinMap.{get};
ghost use Rattle.token_stacks.specs.Texts.{boxes_text};
ghost use Rattle.pcf_values.specs.Most.{most_budget};
ghost use Rattle.interleave_laws.specs.Runs.{Runs};
ghost use Rattle.interleave_laws.specs.Maps.{step_map, seen};
ghost use Rattle.interleave_laws.specs.MapRuns.{IsReachedWithin};
ghost use Rattle.move_rules.specs.Views.{token_of};
ghost use Rattle.walk_text.specs.Lines.{mover_text, move_line, token_text, came, val_text};
ghost use Rattle.walk_text.specs.Telling.{Begins, Shows, IsShown, boxes_by, in_port, is_operator, out_port, told_text, onward_text};
ghost use Rattle.walk_text.specs.Telling.{forked_text, values_text};

use crate::ports::{at_operator, came_by, left_by};
use crate::token::push_token;
use crate::words::{push_numbered, push_value};
use interleave_core::{Core, Stepped};
use move_rules::{Seen, Token, faced};
use net_build::{Net, Node};
use net_text::name_text;
use pcf_values::Val;
use schedule_log::Entry;
use std::alloc::{AllocError, Global};

/// The text of a token. With a ticket it is that of the ticket's token, its box stack cut, so that the next move of the ticket finds its
/// token written.
#[derive(Drop)]
pub(crate) struct Shown {
    pub(crate) text: Vec<u8>,
    pub(crate) ticket: Option<u32>,
}

/// Makes the move of an entry, and appends its line. What is shown is the token behind the last move, and afterwards the one behind this.
pub(crate) fn push_move(
    alloc: Global,
    text: &mut Vec<u8>,
    shown: &mut Shown,
    core: &mut Core,
    net: &Net,
    k: u32,
    entry: Entry,
) -> Result<(), AllocError>
    requires runs { Runs net.now }
    requires reached { IsReachedWithin net.now most_budget core.old }
    requires able { IsSome (step_map net.now core.old entry.ticket) }
    requires shown { Shows core.old shown.old.ticket shown.old.text.items }
    ensures line { OnOk result (text.new.items ≡ text.old.items ++ move_line net.now (seen core.old) k entry.worker entry.ticket) }
    ensures steps { OnOk result (step_map net.now core.old entry.ticket ≡ Some core.new) }
    ensures shown { OnOk result (Shows core.new shown.new.ticket shown.new.text.items) }
{
    let met = begin(alloc, text, shown, core, net, k, entry)?;
    let stepped = core.step(net, entry.ticket)?;
    push_told(alloc, text, shown, core, met.node, entry.ticket, stepped)?;
    text.extend_from_slice(b"\n")
}

/// Begins the line of an entry, up to the port by which its token came, and shows the token.
fn begin(
    alloc: Global,
    text: &mut Vec<u8>,
    shown: &mut Shown,
    core: &Core,
    net: &Net,
    k: u32,
    entry: Entry,
) -> Result<Seen, AllocError>
    requires able { IsSome (step_map net.now core.now entry.ticket) }
    requires shown { Shows core.now shown.old.ticket shown.old.text.items }
    ensures { IfOk result
        (λ s. Begins net.now core.now k entry.worker entry.ticket s text.old.items text.new.items shown.new.text.items) }
{
    match core.token(entry.ticket) {
        Some(token) => match faced(net, token) {
            Some(met) => {
                push_begin(alloc, text, shown, token, met, k, entry)?;
                Ok(met)
            }
            None => unreachable!(),
        },
        None => unreachable!(),
    }
}

/// The same of a token and the node that it faces.
fn push_begin(
    alloc: Global,
    text: &mut Vec<u8>,
    shown: &mut Shown,
    token: &Token,
    met: Seen,
    k: u32,
    entry: Entry,
) -> Result<(), AllocError>
    requires shown { shown.old.ticket ≡ Some entry.ticket → shown.old.text.items ≡ token_text boxes_text (token_of token.now) }
    ensures text { OnOk result (text.new.items ≡ text.old.items ++ (mover_text k entry.worker entry.ticket met.at met.node
        ++ (codes " " ++ (in_port met.node token.now.up token.now.wire ++ codes " ")))) }
    ensures before { OnOk result (shown.new.text.items ≡ token_text (boxes_by (is_operator met.node)) (token_of token.now)) }
{
    push_mover(text, k, entry, met)?;
    push_port(text, came_by(met.node, token.up, token.wire))?;
    show(alloc, shown, token, at_operator(met.node), entry.ticket)
}

/// Writes a ticket's token, unless it is written already.
fn show(
    alloc: Global,
    shown: &mut Shown,
    token: &Token,
    whole: bool,
    ticket: u32,
) -> Result<(), AllocError>
    requires { shown.old.ticket ≡ Some ticket → shown.old.text.items ≡ token_text boxes_text (token_of token.now) }
    ensures { OnOk result (shown.new.text.items ≡ token_text (boxes_by whole) (token_of token.now)) }
{
    if is_shown(shown, whole, ticket) {
        return Ok(());
    }
    write_token(alloc, &mut shown.text, token, whole)
}

/// Whether a ticket's token is written so.
fn is_shown(shown: &Shown, whole: bool, ticket: u32) -> bool
    ensures { IsTrue result → (shown.now.ticket ≡ Some ticket) × (whole ≡ false) }
{
    match shown.ticket {
        Some(other) => other == ticket && !whole,
        None => false,
    }
}

/// Writes a token in the place of what is there.
fn write_token(
    alloc: Global,
    text: &mut Vec<u8>,
    token: &Token,
    whole: bool,
) -> Result<(), AllocError>
    ensures { OnOk result (text.new.items ≡ token_text (boxes_by whole) (token_of token.now)) }
{
    text.clear();
    push_token(alloc, text, token, whole)
}

/// Appends who moved, and where.
fn push_mover(text: &mut Vec<u8>, k: u32, entry: Entry, met: Seen) -> Result<(), AllocError>
    ensures { OnOk result (text.new.items ≡ text.old.items ++ mover_text k entry.worker entry.ticket met.at met.node) }
{
    push_numbered(text, b"move ", k.into())?;
    push_numbered(text, b" worker ", entry.worker.into())?;
    push_numbered(text, b" ticket ", entry.ticket.into())?;
    push_numbered(text, b" node ", met.at.into())?;
    text.extend_from_slice(name_text(met.node))
}

/// Appends a port between spaces.
fn push_port(text: &mut Vec<u8>, port: &[u8]) -> Result<(), AllocError>
    ensures { OnOk result (text.new.items ≡ text.old.items ++ (codes " " ++ (port.now ++ codes " "))) }
{
    text.extend_from_slice(b" ")?;
    text.extend_from_slice(port)?;
    text.extend_from_slice(b" ")
}

/// Appends what a step of a ticket came to, in the state behind it. What is shown is the token before, and then the one that went on.
fn push_told(
    alloc: Global,
    text: &mut Vec<u8>,
    shown: &mut Shown,
    core: &Core,
    node: Node,
    ticket: u32,
    stepped: Stepped,
) -> Result<(), AllocError>
    ensures text { OnOk result
        (text.new.items ≡ text.old.items ++ told_text node shown.old.text.items stepped core.now ticket) }
    ensures shown { OnOk result (Shows core.now shown.new.ticket shown.new.text.items) }
{
    shown.ticket = None;
    match stepped {
        Stepped::Went => push_next(alloc, text, shown, core, node, ticket),
        _ => push_turn(alloc, text, &shown.text, core, node, ticket, stepped),
    }
}

/// The same of a solo move, behind which the token is shown.
fn push_next(
    alloc: Global,
    text: &mut Vec<u8>,
    shown: &mut Shown,
    core: &Core,
    node: Node,
    ticket: u32,
) -> Result<(), AllocError>
    requires nothing { shown.old.ticket ≡ None }
    ensures text { OnOk result
        (text.new.items ≡ text.old.items ++ onward_text node shown.old.text.items (get core.now.tokens ticket)) }
    ensures shown { OnOk result (Shows core.now shown.new.ticket shown.new.text.items) }
{
    match core.token(ticket) {
        Some(token) => push_shown(alloc, text, shown, node, token, ticket),
        None => Ok(()),
    }
}

/// The same of a token.
fn push_shown(
    alloc: Global,
    text: &mut Vec<u8>,
    shown: &mut Shown,
    node: Node,
    token: &Token,
    ticket: u32,
) -> Result<(), AllocError>
    ensures text { OnOk result (text.new.items ≡ text.old.items ++ came (out_port node token.now.up token.now.wire) shown.old.text.items
        (token_text (boxes_by (is_operator node)) (token_of token.now))) }
    ensures shown { OnOk result (IsShown ticket (token_of token.now) shown.new.ticket shown.new.text.items) }
{
    let whole = at_operator(node);
    push_came(text, left_by(node, token.up, token.wire), &shown.text)?;
    write_token(alloc, &mut shown.text, token, whole)?;
    shown.ticket = unless(whole, ticket);
    text.extend_from_slice(&shown.text)
}

/// The ticket, unless its token is written whole.
fn unless(whole: bool, ticket: u32) -> Option<u32>
    ensures { result ≡ (if whole then None else Some ticket) }
{
    if whole { None } else { Some(ticket) }
}

/// Appends what a step of a ticket came to, with the text of the token before.
fn push_turn(
    alloc: Global,
    text: &mut Vec<u8>,
    before: &[u8],
    core: &Core,
    node: Node,
    ticket: u32,
    stepped: Stepped,
) -> Result<(), AllocError>
    ensures { OnOk result (text.new.items ≡ text.old.items ++ told_text node before.now stepped core.now ticket) }
{
    match stepped {
        Stepped::Went => push_onward(alloc, text, before, core, node, ticket),
        Stepped::Forked(other) => push_fork(alloc, text, before, core, node, ticket, other),
        Stepped::Kept => push_ended(text, before, b"kept"),
        Stepped::Joined(left, right) => {
            push_join(alloc, text, before, core, node, ticket, left, right)
        }
        Stepped::Answered(value) => push_answer(text, before, value),
    }
}

/// Appends the port by which a token has left the node, the token before, and the token itself, if it is there.
fn push_onward(
    alloc: Global,
    text: &mut Vec<u8>,
    before: &[u8],
    core: &Core,
    node: Node,
    ticket: u32,
) -> Result<(), AllocError>
    ensures { OnOk result (text.new.items ≡ text.old.items ++ onward_text node before.now (get core.now.tokens ticket)) }
{
    match core.token(ticket) {
        Some(token) => push_went(alloc, text, before, node, token),
        None => Ok(()),
    }
}

/// The same of a token.
fn push_went(
    alloc: Global,
    text: &mut Vec<u8>,
    before: &[u8],
    node: Node,
    token: &Token,
) -> Result<(), AllocError>
    ensures { OnOk result (text.new.items ≡ text.old.items ++ came (out_port node token.now.up token.now.wire) before.now
        (token_text (boxes_by (is_operator node)) (token_of token.now))) }
{
    push_came(text, left_by(node, token.up, token.wire), before)?;
    push_token(alloc, text, token, at_operator(node))
}

/// Appends the port by which a token left, the token before, and what leads to that behind.
fn push_came(text: &mut Vec<u8>, port: &[u8], before: &[u8]) -> Result<(), AllocError>
    ensures { OnOk result (text.new.items ≡ text.old.items ++ (port.now ++ (codes " " ++ (before.now ++ codes " => ")))) }
{
    text.extend_from_slice(port)?;
    text.extend_from_slice(b" ")?;
    text.extend_from_slice(before)?;
    text.extend_from_slice(b" => ")
}

/// Appends what a fork came to.
fn push_fork(
    alloc: Global,
    text: &mut Vec<u8>,
    before: &[u8],
    core: &Core,
    node: Node,
    ticket: u32,
    other: u32,
) -> Result<(), AllocError>
    ensures { OnOk result (text.new.items ≡ text.old.items ++ (onward_text node before.now (get core.now.tokens ticket)
        ++ forked_text other (get core.now.tokens other))) }
{
    push_onward(alloc, text, before, core, node, ticket)?;
    push_forked(alloc, text, core, other)
}

/// Appends the new ticket of a fork with its token.
fn push_forked(alloc: Global, text: &mut Vec<u8>, core: &Core, other: u32) -> Result<(), AllocError>
    ensures { OnOk result (text.new.items ≡ text.old.items ++ forked_text other (get core.now.tokens other)) }
{
    match core.token(other) {
        Some(token) => {
            push_numbered(text, b" fork ", other.into())?;
            text.extend_from_slice(b" ")?;
            push_token(alloc, text, token, true)
        }
        None => Ok(()),
    }
}

/// Appends what the second answer at a join came to.
fn push_join(
    alloc: Global,
    text: &mut Vec<u8>,
    before: &[u8],
    core: &Core,
    node: Node,
    ticket: u32,
    left: Val,
    right: Val,
) -> Result<(), AllocError>
    ensures { OnOk result (text.new.items ≡ text.old.items ++ (onward_text node before.now (get core.now.tokens ticket)
        ++ values_text left right)) }
{
    push_onward(alloc, text, before, core, node, ticket)?;
    push_values(text, left, right)
}

/// Appends both values at a join.
fn push_values(text: &mut Vec<u8>, left: Val, right: Val) -> Result<(), AllocError>
    ensures { OnOk result (text.new.items ≡ text.old.items ++ values_text left right) }
{
    text.extend_from_slice(b" joined ")?;
    push_value(text, left)?;
    text.extend_from_slice(b" ")?;
    push_value(text, right)
}

/// Appends what became of a token that ended.
fn push_ended(text: &mut Vec<u8>, before: &[u8], what: &[u8]) -> Result<(), AllocError>
    ensures { OnOk result (text.new.items ≡ text.old.items ++ came (codes "-") before.now what.now) }
{
    push_came(text, b"-", before)?;
    text.extend_from_slice(what)
}

/// Appends the answer of the run.
fn push_answer(text: &mut Vec<u8>, before: &[u8], value: Val) -> Result<(), AllocError>
    ensures { OnOk result (text.new.items ≡ text.old.items ++ came (codes "-") before.now (codes "answer " ++ val_text value)) }
{
    push_ended(text, before, b"answer ")?;
    push_value(text, value)
}
