//! The forms of terms with two operands at one depth.

ghost use Rattle.std.specs.Prelude.{◌≡◌, IfOk};
ghost use Rattle.pcf_values.specs.Views.{ty_of};
ghost use Rattle.net_build.specs.Building.{double_node, double_type};

use crate::Node;
use pcf_values::{Operator, Ty};
use std::alloc::{AllocError, Global};

#[derive(Clone, Copy)]
pub(crate) enum Double {
    Binary(Operator),
    Pair,
}

impl Double {
    /// Its node, of the operands' wires and its own.
    pub(crate) fn node(self, left: u32, right: u32, wire: u32) -> Node
        ensures { result ≡ double_node self left right wire }
    {
        match self {
            Double::Binary(operator) => Node::Binary {
                operator,
                left,
                right,
                wire,
            },
            Double::Pair => Node::Pair { left, right, wire },
        }
    }

    /// Its type, of the operands'.
    pub(crate) fn ty(self, alloc: Global, left: &Ty, right: &Ty) -> Result<Ty, AllocError>
        ensures { IfOk result (λ t. ty_of t ≡ double_type self (ty_of left.now) (ty_of right.now)) }
    {
        match self {
            Double::Binary(_) => Ok(Ty::Nat),
            Double::Pair => {
                let left = Box::new(alloc, left.copy(alloc)?)?;
                Ok(Ty::Product(left, Box::new(alloc, right.copy(alloc)?)?))
            }
        }
    }
}
