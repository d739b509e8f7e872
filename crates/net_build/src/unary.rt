//! The forms of terms with one operand.

ghost use Rattle.std.specs.Prelude.{◌≡◌, IfOk};
ghost use Rattle.pcf_values.specs.Views.{ty_of};
ghost use Rattle.net_build.specs.Building.{unary_node, unary_type};

use crate::Node;
use pcf_values::{Side, Ty};
use std::alloc::{AllocError, Global};

#[derive(Clone, Copy)]
pub(crate) enum Unary {
    Succ,
    Pred,
    Proj(Side),
}

impl Unary {
    /// Its node, of the operand's wire and its own.
    pub(crate) fn node(self, operand: u32, wire: u32) -> Node
        ensures { result ≡ unary_node self operand wire }
    {
        match self {
            Unary::Succ => Node::Succ { operand, wire },
            Unary::Pred => Node::Pred { operand, wire },
            Unary::Proj(side) => Node::Proj {
                side,
                operand,
                wire,
            },
        }
    }

    /// Its type, of the operand's. Of what is no pair a part has type `nat`: no typed term has one.
    pub(crate) fn ty(self, alloc: Global, operand: &Ty) -> Result<Ty, AllocError>
        ensures { IfOk result (λ t. ty_of t ≡ unary_type self (ty_of operand.now)) }
    {
        match (self, operand) {
            (Unary::Proj(Side::Left), Ty::Product(left, _)) => left.copy(alloc),
            (Unary::Proj(Side::Right), Ty::Product(_, right)) => right.copy(alloc),
            _ => Ok(Ty::Nat),
        }
    }
}
