//! What a token that makes no solo move does at the node that it faces.

ghost use Rattle.std.specs.Prelude.{◌≡◌, ℕ, false};
ghost use Rattle.move_rules.specs.Moves.{move};
ghost use Rattle.move_rules.specs.AtNode.{NotSolo};
ghost use Rattle.move_rules.specs.Views.{token_of};
ghost use Rattle.interleave_core.specs.Roles.{operand_role, role_at, role_of, role_move, IsIdle, MetAt, StandsStill};

use crate::live::LiveTokens;
use move_rules::{Kind, Token, faced};
use net_build::{Net, Node};
use pcf_values::{Operator, Side, Val};

/// What comes of a token: it forks to two operands, it joins at an operator with its value, whose conclusion is that wire, it is the
/// answer, or it has no move.
#[derive(Clone, Copy)]
pub(crate) enum Role {
    Fork(u32, u32),
    Join(Operator, Side, Val, u32),
    Last(Val),
    Still,
}

/// What comes of a value on this wire at an operator: a join, if the wire is one of its operands.
fn joins(operator: Operator, a: u32, b: u32, c: u32, v: Val, wire: u32) -> Role
    ensures { result ≡ operand_role operator a b c (Kind.Ans v) false wire }
{
    if a == wire {
        Role::Join(operator, Side::Left, v, c)
    } else if b == wire {
        Role::Join(operator, Side::Right, v, c)
    } else {
        Role::Still
    }
}

/// What comes of a token at an operator: a question that goes up forks, and a value that comes down joins.
fn operand(operator: Operator, a: u32, b: u32, c: u32, kind: Kind, up: bool, wire: u32) -> Role
    ensures { result ≡ operand_role operator a b c kind up wire }
{
    match kind {
        Kind::Ask => { if up { Role::Fork(a, b) } else { Role::Still } }
        Kind::Ans(v) => {
            if up {
                Role::Still
            } else {
                joins(operator, a, b, c, v, wire)
            }
        }
    }
}

/// What comes of a token at the root: a value that comes down is the answer.
fn last(kind: Kind, up: bool) -> Role
    ensures { (c w : ℕ) → result ≡ role_at (Node.Root c) kind up w }
{
    match kind {
        Kind::Ask => Role::Still,
        Kind::Ans(v) => { if up { Role::Still } else { Role::Last(v) } }
    }
}

/// What comes of a token at this node.
fn at_node(node: Node, kind: Kind, up: bool, wire: u32) -> Role
    ensures { result ≡ role_at node kind up wire }
{
    match node {
        Node::Binary {
            operator,
            left: a,
            right: b,
            wire: w,
        } => operand(operator, a, b, w, kind, up, wire),
        Node::Root { .. } => last(kind, up),
        _ => Role::Still,
    }
}

/// What the token does at this node, where it makes no solo move there.
fn role_played(node: Node, token: &Token) -> Role
    ensures { result ≡ role_of node token.now.kind token.now.up token.now.wire token.now.stacks.work }
{
    if token.stacks.work_is_empty() {
        at_node(node, token.kind, token.up, token.wire)
    } else {
        Role::Still
    }
}

/// The node's number and the role of a token that makes no solo move.
fn met(net: &Net, token: &Token) -> (u32, Role)
    requires { NotSolo (move net.now (token_of token.now)) }
    ensures plays { move net.now (token_of token.now) ≡ role_move result.1 result.0 token.now.stacks.boxes }
    ensures idle { IsIdle result.1 token.now.stacks.work }
{
    match faced(net, token) {
        Some(seen) => (seen.at, role_played(seen.node, token)),
        None => (0, Role::Still),
    }
}

/// The node's number and the role of the ticket's token, which makes no solo move.
pub(crate) fn met_at(net: &Net, live: &LiveTokens, ticket: u32) -> (u32, Role)
    requires { StandsStill net.now live.now ticket }
    ensures { MetAt net.now live.now ticket result.0 result.1 }
{
    match live.get(ticket) {
        Some(token) => met(net, token),
        None => unreachable!(),
    }
}
