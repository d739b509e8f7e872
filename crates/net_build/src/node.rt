//! The nodes of a net.

ghost use Rattle.std.specs.Prelude.{◌≡◌, ◌↔◌, ◌∷◌, [], IsTrue};
ghost use Rattle.net_build.specs.Nets.{premises, conclusions};
ghost use Rattle.net_build.specs.Found.{present};

use pcf_values::{Operator, Side};

/// A node, with the numbers of its wires in the order in which a listing gives them. A premise is a wire above the node, and a
/// conclusion a wire below it.
#[derive(Clone, Copy, PartialEq, Eq)]
pub enum Node {
    /// A number.
    Const {
        /// The number itself, which is no wire.
        value: u64,
        /// The conclusion: its value wire.
        wire: u32,
    },
    /// The successor of a number.
    Succ {
        /// The premise: the operand's value wire.
        operand: u32,
        /// The conclusion: its value wire.
        wire: u32,
    },
    /// The predecessor of a number, 0 of 0.
    Pred {
        /// The premise: the operand's value wire.
        operand: u32,
        /// The conclusion: its value wire.
        wire: u32,
    },
    /// An operator on two numbers.
    Binary {
        /// Which operator, which is no wire.
        operator: Operator,
        /// The first premise: the left operand's value wire.
        left: u32,
        /// The second premise: the right operand's value wire.
        right: u32,
        /// The conclusion: its value wire.
        wire: u32,
    },
    /// The choice between two numbers, by whether a third is 0.
    Ifz {
        /// The first premise: the value wire of the number that is tested.
        condition: u32,
        /// The second premise: the value wire of the branch for 0.
        then: u32,
        /// The third premise: the value wire of the branch for any other number.
        otherwise: u32,
        /// The conclusion: its value wire.
        wire: u32,
    },
    /// A use of a variable (dereliction). Both wires are below it.
    Der {
        /// The first conclusion: its value wire.
        wire: u32,
        /// The second conclusion: a variable wire, by which the use goes to the variable's binder.
        variable: u32,
    },
    /// Two uses of a variable joined into one (contraction).
    Con {
        /// The first premise: the variable wire of the uses on the left.
        left: u32,
        /// The second premise: the variable wire of the uses on the right.
        right: u32,
        /// The conclusion: the variable wire of both.
        wire: u32,
    },
    /// A variable that is not used (weakening).
    Weak {
        /// The conclusion: the variable's wire, which goes to its binder.
        variable: u32,
    },
    /// A function.
    Lam {
        /// The first premise: the body's value wire.
        body: u32,
        /// The second premise: the variable wire of the function's variable.
        variable: u32,
        /// The conclusion: its value wire.
        wire: u32,
    },
    /// A function applied to an argument.
    App {
        /// The first premise: the function's value wire.
        function: u32,
        /// The second premise: the bang wire of the argument's box.
        argument: u32,
        /// The conclusion: its value wire.
        wire: u32,
    },
    /// The box of an argument (promotion).
    BoxNode {
        /// The premise: the argument's value wire, in the box.
        inside: u32,
        /// The conclusion: the bang wire of the box, outside it.
        outside: u32,
    },
    /// The way of a variable's uses out of a box.
    Door {
        /// The premise: the variable wire in the box.
        inside: u32,
        /// The conclusion: the variable wire outside it.
        outside: u32,
    },
    /// A fixed point, with the box of its body.
    FixBox {
        /// The first premise: the body's value wire, in the box.
        body: u32,
        /// The second premise: the variable wire of the fixed point's variable, in the box.
        variable: u32,
        /// The conclusion: its value wire, outside the box.
        wire: u32,
    },
    /// The end of a net.
    Root {
        /// The premise: the value wire of the whole program.
        wire: u32,
    },
    /// A pair.
    Pair {
        /// The first premise: the left part's value wire.
        left: u32,
        /// The second premise: the right part's value wire.
        right: u32,
        /// The conclusion: its value wire.
        wire: u32,
    },
    /// A part of a pair.
    Proj {
        /// Which part, which is no wire.
        side: Side,
        /// The premise: the pair's value wire.
        operand: u32,
        /// The conclusion: its value wire.
        wire: u32,
    },
}

impl Node {
    /// Whether both are one node, with the same wires.
    pub fn same(self, other: Node) -> bool
        ensures { IsTrue result ↔ (self ≡ other) }
    {
        self == other
    }

    /// The wires above this node, in their order.
    pub fn premises(self) -> (Option<u32>, Option<u32>, Option<u32>)
        ensures { present (result.0 ∷ result.1 ∷ result.2 ∷ []) ≡ premises self }
    {
        match self {
            Node::Const { .. } | Node::Der { .. } | Node::Weak { .. } => (None, None, None),
            Node::Succ { operand, .. } | Node::Pred { operand, .. } | Node::Proj { operand, .. } =>
                { (Some(operand), None, None) }
            Node::Binary { left, right, .. }
            | Node::Pair { left, right, .. }
            | Node::Con { left, right, .. } => (Some(left), Some(right), None),
            Node::Ifz {
                condition,
                then,
                otherwise,
                ..
            } => { (Some(condition), Some(then), Some(otherwise)) }
            Node::Lam { body, variable, .. } | Node::FixBox { body, variable, .. } => {
                (Some(body), Some(variable), None)
            }
            Node::App {
                function,
                argument,
                ..
            } => (Some(function), Some(argument), None),
            Node::BoxNode { inside, .. } | Node::Door { inside, .. } => (Some(inside), None, None),
            Node::Root { wire } => (Some(wire), None, None),
        }
    }

    /// The wires below this node, in their order.
    pub fn conclusions(self) -> (Option<u32>, Option<u32>)
        ensures { present (result.0 ∷ result.1 ∷ []) ≡ conclusions self }
    {
        match self {
            Node::Const { wire, .. }
            | Node::Succ { wire, .. }
            | Node::Pred { wire, .. }
            | Node::Binary { wire, .. }
            | Node::Ifz { wire, .. }
            | Node::Con { wire, .. }
            | Node::Lam { wire, .. }
            | Node::App { wire, .. }
            | Node::FixBox { wire, .. }
            | Node::Pair { wire, .. }
            | Node::Proj { wire, .. } => (Some(wire), None),
            Node::Der { wire, variable } => (Some(wire), Some(variable)),
            Node::Weak { variable } => (Some(variable), None),
            Node::BoxNode { outside, .. } | Node::Door { outside, .. } => (Some(outside), None),
            Node::Root { .. } => (None, None),
        }
    }
}
