//! The names of a node's wires.

ghost use Rattle.std.specs.Prelude.{◌≡◌, ◌∷◌, [], codes};
ghost use Rattle.walk_text.specs.Ports.{port, above_port, below_port};
ghost use Rattle.walk_text.specs.Telling.{is_operator, in_port, out_port};

use net_build::Node;

/// Whether entries are opened and closed at the node.
pub(crate) fn at_operator(node: Node) -> bool
    ensures { result ≡ is_operator node }
{
    match node {
        Node::Binary { .. } => true,
        _ => false,
    }
}

/// The name of the wire by which a token came that faces the node.
pub(crate) fn came_by(node: Node, up: bool, wire: u32) -> &'static [u8]
    ensures { result.now ≡ in_port node up wire }
{
    if up {
        below(node, wire)
    } else {
        above(node, wire)
    }
}

/// The name of the wire by which a token has left the node.
pub(crate) fn left_by(node: Node, up: bool, wire: u32) -> &'static [u8]
    ensures { result.now ≡ out_port node up wire }
{
    if up {
        above(node, wire)
    } else {
        below(node, wire)
    }
}

/// The name of a wire above the node.
fn above(node: Node, wire: u32) -> &'static [u8]
    ensures { result.now ≡ above_port node wire }
{
    match node {
        Node::Const { .. } | Node::Der { .. } | Node::Weak { .. } => b"-",
        Node::Succ { operand, .. } | Node::Pred { operand, .. } | Node::Proj { operand, .. } => one(
            operand, b"operand", wire,
        ),
        Node::Binary { left, right, .. } | Node::Con { left, right, .. } => two(
            left, b"left", right, b"right", wire,
        ),
        Node::Pair { left, right, .. } => two(left, b"first", right, b"second", wire),
        Node::Ifz {
            condition,
            then,
            otherwise,
            ..
        } => of_test(condition, then, otherwise, wire),
        Node::Lam { body, variable, .. } | Node::FixBox { body, variable, .. } => {
            two(body, b"body", variable, b"variable", wire)
        }
        Node::App {
            function,
            argument,
            ..
        } => two(function, b"function", argument, b"argument", wire),
        Node::BoxNode { inside, .. } | Node::Door { inside, .. } => one(inside, b"inside", wire),
        Node::Root { wire: value } => one(value, b"value", wire),
    }
}

/// The name of a wire below the node.
fn below(node: Node, wire: u32) -> &'static [u8]
    ensures { result.now ≡ below_port node wire }
{
    match node {
        Node::Der {
            wire: value,
            variable,
        } => two(value, b"value", variable, b"variable", wire),
        Node::Weak { variable } => one(variable, b"variable", wire),
        Node::BoxNode { outside, .. } | Node::Door { outside, .. } => one(
            outside, b"outside", wire,
        ),
        Node::Root { .. } => b"-",
        Node::Const { wire: own, .. }
        | Node::Succ { wire: own, .. }
        | Node::Pred { wire: own, .. }
        | Node::Binary { wire: own, .. }
        | Node::Ifz { wire: own, .. }
        | Node::Con { wire: own, .. }
        | Node::Lam { wire: own, .. }
        | Node::App { wire: own, .. }
        | Node::FixBox { wire: own, .. }
        | Node::Pair { wire: own, .. }
        | Node::Proj { wire: own, .. } => one(own, b"conclusion", wire),
    }
}

/// The name of the one wire, or `-`.
fn one(first: u32, name: &'static [u8], wire: u32) -> &'static [u8]
    ensures { result.now ≡ port (first ∷ []) (name.now ∷ []) wire }
{
    if first == wire { name } else { b"-" }
}

/// The name of the one of two wires, or `-`.
fn two(
    first: u32,
    name: &'static [u8],
    second: u32,
    other: &'static [u8],
    wire: u32,
) -> &'static [u8]
    ensures { result.now ≡ port (first ∷ second ∷ []) (name.now ∷ other.now ∷ []) wire }
{
    if first == wire {
        name
    } else {
        one(second, other, wire)
    }
}

/// The name of a wire above a test.
fn of_test(condition: u32, then: u32, otherwise: u32, wire: u32) -> &'static [u8]
    ensures { result.now ≡ port (condition ∷ then ∷ otherwise ∷ []) (codes "condition" ∷ codes "then" ∷ codes "else" ∷ []) wire }
{
    if condition == wire {
        b"condition"
    } else {
        two(then, b"then", otherwise, b"else", wire)
    }
}
