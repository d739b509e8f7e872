//! One solo move, in place.

ghost use Rattle.std.specs.Prelude.{◌≡◌, IfOk, OnErr, slice_get};
ghost use Rattle.std.specs.Option.{option_map};
ghost use Rattle.net_build.specs.Found.{number_of};
ghost use Rattle.move_rules.specs.Moves.{move};
ghost use Rattle.move_rules.specs.AtNode.{Unaided};
ghost use Rattle.move_rules.specs.Steps.{Passes, IsPlain, node_of};
ghost use Rattle.move_rules.specs.Table.{facing};
ghost use Rattle.move_rules.specs.Views.{place_at, token_of, numbered};
ghost use Rattle.move_rules.specs.Walks.{SoloMoves, SoloStep};

use crate::ground::{const_moves, pred_moves, succ_moves, test_moves};
use crate::plain::{
    app_moves, box_moves, con_moves, der_moves, door_moves, fix_moves, lam_moves, pair_moves,
    proj_moves,
};
use crate::{Seen, Token};
use net_build::{Net, Node};
use std::alloc::AllocError;

/// The move through a node that the token faces.
#[inline(always)]
fn pass(token: &mut Token, node: &Node) -> Result<bool, AllocError>
    ensures ok { IfOk result (λ made. Passes node.now token.old made token.new) }
    ensures err { OnErr result (token.new ≡ token.old) }
    ensures plain { OnErr result (IsPlain node.now) }
{
    match *node {
        Node::Const { value, .. } => Ok(const_moves(token, value)),
        Node::Succ { operand, wire } => Ok(succ_moves(token, operand, wire)),
        Node::Pred { operand, wire } => Ok(pred_moves(token, operand, wire)),
        Node::Ifz {
            condition,
            then,
            otherwise,
            wire,
        } => Ok(test_moves(token, condition, then, otherwise, wire)),
        Node::Der { wire, variable } => der_moves(token, wire, variable),
        Node::Con { left, right, wire } => con_moves(token, left, right, wire),
        Node::Lam {
            body,
            variable,
            wire,
        } => lam_moves(token, body, variable, wire),
        Node::App {
            function,
            argument,
            wire,
        } => app_moves(token, function, argument, wire),
        Node::BoxNode { inside, outside } => box_moves(token, inside, outside),
        Node::Door { inside, outside } => door_moves(token, inside, outside),
        Node::FixBox {
            body,
            variable,
            wire,
        } => fix_moves(token, body, variable, wire),
        Node::Pair { left, right, wire } => pair_moves(token, left, right, wire),
        Node::Proj {
            side,
            operand,
            wire,
        } => proj_moves(token, side, operand, wire),
        Node::Binary { .. } | Node::Weak { .. } | Node::Root { .. } => Ok(false),
    }
}

/// The number of the node that the token faces.
fn number(net: &Net, token: &Token) -> Option<u32>
    ensures { result ≡ number_of (facing net.now (place_at token.now.wire token.now.up token.now.stacks)) }
{
    if token.up {
        net.above(token.wire)
    } else {
        net.below(token.wire)
    }
}

/// The node that the token faces, with its number: the least one above its wire where it goes up, and below where it goes down. `None`
/// exactly when there is none. Takes no memory.
pub fn faced(net: &Net, token: &Token) -> Option<Seen>
    ensures { option_map numbered result ≡ facing net.now (place_at token.now.wire token.now.up token.now.stacks) }
{
    match number(net, token) {
        Some(at) => match net.node(at) {
            Some(node) => Some(Seen { at, node }),
            None => None,
        },
        None => None,
    }
}

/// The node of this number, where it lies in the net.
fn node_at(net: &Net, n: u32) -> Option<&Node>
    ensures { option_map (λ n. n.now) result ≡ slice_get net.now.nodes n }
{
    net.nodes().get(n as usize)
}

/// The node that the token faces, where it lies in the net.
fn faced_node<'n>(net: &'n Net, token: &Token) -> Option<&'n Node>
    ensures { option_map (λ n. n.now) result ≡ node_of (facing net.now (place_at token.now.wire token.now.up token.now.stacks)) }
{
    match number(net, token) {
        Some(at) => node_at(net, at),
        None => None,
    }
}

/// Makes the token's next move on this net in place, if it is a solo move, and answers whether it did: `false` exactly when the move is a
/// fork, a join, the answer, or none, and then the token stays. It holds for every token of every net.
///
/// # Errors
///
/// Only where memory runs out for what a stack grows by; then the token stays. A fork, a join and the answer take no memory.
#[inline(always)]
pub fn solo_step(net: &Net, token: &mut Token) -> Result<bool, AllocError>
    ensures ok { IfOk result (λ made. SoloStep net.now made token.old token.new) }
    ensures err { OnErr result (token.new ≡ token.old) }
    ensures unaided { OnErr result (Unaided (move net.now (token_of token.old))) }
{
    let Some(node) = faced_node(net, token) else {
        return Ok(false);
    };
    let made = pass(token, node)?;
    Ok(made)
}

/// Makes the token's next move on this net in place, if it is a solo move, and answers the node; `None` exactly when the move is a fork, a
/// join, the answer, or none, and then the token stays. It holds for every token of every net.
///
/// # Errors
///
/// Only where memory runs out for what a stack grows by; then the token stays. A fork, a join and the answer take no memory.
pub fn solo_move(net: &Net, token: &mut Token) -> Result<Option<Seen>, AllocError>
    ensures ok { IfOk result (λ seen. SoloMoves net.now token.old seen token.new) }
    ensures err { OnErr result (token.new ≡ token.old) }
    ensures unaided { OnErr result (Unaided (move net.now (token_of token.old))) }
{
    let Some(seen) = faced(net, token) else {
        return Ok(None);
    };
    if pass(token, &seen.node)? {
        Ok(Some(seen))
    } else {
        Ok(None)
    }
}
