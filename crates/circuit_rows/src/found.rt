//! The row of a channel.

ghost use Rattle.std.specs.Prelude.{◌≡◌, []};
ghost use Rattle.std.specs.Option.{option_map};
ghost use Rattle.net_build.specs.Found.{number_of};
ghost use Rattle.move_rules.specs.Table.{facing};
ghost use Rattle.move_rules.specs.Views.{numbered};
ghost use Rattle.pcf_values.specs.declared.side.Side.TheVariants.{Left, Right};
ghost use Rattle.net_rows.specs.Rows.{rises, falls, if_at, row_up, row_down, row_of, JOIN};
ghost use Rattle.net_rows.specs.RowMoves.{at};
ghost use Rattle.circuit_rows.specs.Views.{channel_of, row_view, found_of, row_at};

use crate::row::{Channel, Found, Row};
use move_rules::Seen;
use net_build::{Net, Node};
use pcf_values::{Operator, Side};

/// Up a wire.
fn rises(wire: u32) -> Channel
    ensures { channel_of result ≡ rises wire }
{
    Channel { wire, up: true }
}

/// Down a wire.
fn falls(wire: u32) -> Channel
    ensures { channel_of result ≡ falls wire }
{
    Channel { wire, up: false }
}

/// The first row at this wire, and else the second.
fn if_at(first: u32, wire: u32, row: Row, other: Row) -> Row
    ensures { row_view result ≡ if_at first wire (row_view row) (row_view other) }
{
    if first == wire { row } else { other }
}

/// The row of a token that comes down an operand of an operator.
fn join(operator: Operator, left: u32, down: u32, wire: u32) -> Row
    ensures { row_view result ≡ if_at left down (JOIN operator Left wire) (JOIN operator Right wire) }
{
    let side = if left == down {
        Side::Left
    } else {
        Side::Right
    };
    Row::Join {
        operator,
        side,
        wire,
    }
}

/// The row of a token that comes up a conclusion of a node.
fn row_up(node: Node, wire: u32) -> Row
    ensures { row_view result ≡ row_up node wire }
{
    match node {
        Node::Const { value, wire: own } => Row::Const {
            value,
            to: falls(own),
        },
        Node::Succ { operand, .. } | Node::Pred { operand, .. } => Row::Go { to: rises(operand) },
        Node::Binary { left, right, .. } => Row::Fork {
            left: rises(left),
            right: rises(right),
        },
        Node::Ifz { condition, .. } => Row::Go {
            to: rises(condition),
        },
        Node::Der {
            wire: value,
            variable,
        } => if_at(
            value,
            wire,
            Row::Star {
                to: falls(variable),
            },
            Row::Unstar { to: falls(value) },
        ),
        Node::Con { left, right, .. } => Row::Con {
            left: rises(left),
            right: rises(right),
        },
        Node::Weak { .. } | Node::Root { .. } => Row::Dead,
        Node::Lam { body, variable, .. } => Row::Select {
            at_r: rises(body),
            at_l: rises(variable),
        },
        Node::App { function, .. } => Row::PushR {
            to: rises(function),
        },
        Node::BoxNode { inside, .. } => Row::BoxIn { to: rises(inside) },
        Node::Door { inside, .. } => Row::DoorIn { to: rises(inside) },
        Node::FixBox { body, .. } => Row::FixIn { to: rises(body) },
        Node::Pair { left, right, .. } => Row::Select {
            at_r: rises(right),
            at_l: rises(left),
        },
        Node::Proj {
            side: Side::Left,
            operand,
            ..
        } => Row::PushL { to: rises(operand) },
        Node::Proj {
            side: Side::Right,
            operand,
            ..
        } => Row::PushR { to: rises(operand) },
    }
}

/// The row of a token that comes down a premise of a node.
fn row_down(node: Node, wire: u32) -> Row
    ensures { row_view result ≡ row_down node wire }
{
    match node {
        Node::Const { .. } | Node::Der { .. } | Node::Weak { .. } => Row::Dead,
        Node::Succ { wire: own, .. } => Row::Succ { to: falls(own) },
        Node::Pred { wire: own, .. } => Row::Pred { to: falls(own) },
        Node::Binary {
            operator,
            left,
            wire: own,
            ..
        } => join(operator, left, wire, own),
        Node::Ifz {
            condition,
            then,
            otherwise,
            wire: own,
        } => if_at(
            condition,
            wire,
            Row::Test {
                zero: rises(then),
                other: rises(otherwise),
            },
            Row::Go { to: falls(own) },
        ),
        Node::Con {
            left,
            wire: own,
            ..
        } => if_at(
            left,
            wire,
            Row::Left { to: falls(own) },
            Row::Right { to: falls(own) },
        ),
        Node::Lam {
            body,
            wire: own,
            ..
        } => if_at(
            body,
            wire,
            Row::PushR { to: falls(own) },
            Row::PushL { to: falls(own) },
        ),
        Node::App {
            function,
            argument,
            wire: own,
        } => if_at(
            function,
            wire,
            Row::Select {
                at_r: falls(own),
                at_l: rises(argument),
            },
            Row::PushL {
                to: rises(function),
            },
        ),
        Node::BoxNode { outside, .. } => Row::BoxOut { to: falls(outside) },
        Node::Door { outside, .. } => Row::DoorOut { to: falls(outside) },
        Node::FixBox {
            body,
            variable,
            wire: own,
        } => if_at(
            body,
            wire,
            Row::FixOut {
                outside: falls(own),
                inside: rises(variable),
            },
            Row::FixVar { to: rises(body) },
        ),
        Node::Root { .. } => Row::Answer,
        Node::Pair {
            left,
            wire: own,
            ..
        } => if_at(
            left,
            wire,
            Row::PushL { to: falls(own) },
            Row::PushR { to: falls(own) },
        ),
        Node::Proj { wire: own, .. } => Row::Pop { to: falls(own) },
    }
}

/// The row of a token that comes to a node by a channel.
fn row_at(node: Node, channel: Channel) -> Row
    ensures { row_view result ≡ row_at node (channel_of channel) }
{
    if channel.up {
        row_up(node, channel.wire)
    } else {
        row_down(node, channel.wire)
    }
}

/// The number of the node to which a channel leads.
fn number(net: &Net, channel: Channel) -> Option<u32>
    ensures { result ≡ number_of (facing net.now (at (channel_of channel) [] [])) }
{
    if channel.up {
        net.above(channel.wire)
    } else {
        net.below(channel.wire)
    }
}

/// The node to which a channel leads, with its number.
fn seen(net: &Net, channel: Channel) -> Option<Seen>
    ensures { option_map numbered result ≡ facing net.now (at (channel_of channel) [] []) }
{
    match number(net, channel) {
        Some(at) => match net.node(at) {
            Some(node) => Some(Seen { at, node }),
            None => None,
        },
        None => None,
    }
}

/// The row of a channel: what the least node on that side of the wire does with a token that comes to it. `None` where no node stands
/// there; a sound net has a row for each of its channels. Takes no memory.
pub fn row_of(net: &Net, channel: Channel) -> Option<Found>
    ensures { option_map found_of result ≡ row_of net.now (channel_of channel) }
{
    match seen(net, channel) {
        Some(seen) => Some(Found {
            node: seen.at,
            row: row_at(seen.node, channel),
        }),
        None => None,
    }
}
