//! The forms of nodes, by the names that a listing gives them: the one table of the operators' names, and of the parts'.

ghost use Rattle.std.specs.Prelude.{◌≡◌};
ghost use Rattle.std.specs.Option.{option_map};
ghost use Rattle.net_text.specs.Listing.{operator_name, part_name};
ghost use Rattle.net_text.specs.NodeText.{all_forms, count_of, form_among, name_of, one_node, two_node, three_node, four_node};

use crate::scan::behind;
use net_build::Node;
use pcf_values::{Operator, Side};

/// The name of an operator, behind a space.
pub(crate) fn operator_name(operator: Operator) -> &'static [u8]
    ensures { result.now ≡ operator_name operator }
{
    match operator {
        Operator::Plus => b" Plus",
        Operator::Minus => b" Minus",
        Operator::Times => b" Times",
    }
}

/// The name of what takes the part of a pair on this side, behind a space.
pub(crate) fn part_name(side: Side) -> &'static [u8]
    ensures { result.now ≡ part_name side }
{
    match side {
        Side::Left => b" Fst",
        Side::Right => b" Snd",
    }
}

/// The form of a node.
#[derive(Clone, Copy)]
pub(crate) enum Form {
    Const,
    Succ,
    Pred,
    Binary(Operator),
    Ifz,
    Der,
    Con,
    Weak,
    Lam,
    App,
    BoxNode,
    Door,
    FixBox,
    Root,
    Pair,
    Proj(Side),
}

impl Form {
    /// Its name, behind a space.
    pub(crate) fn name(self) -> &'static [u8]
        ensures { result.now ≡ name_of self }
    {
        match self {
            Form::Const => b" Const",
            Form::Succ => b" Succ",
            Form::Pred => b" Pred",
            Form::Binary(operator) => operator_name(operator),
            Form::Ifz => b" Ifz",
            Form::Der => b" Der",
            Form::Con => b" Con",
            Form::Weak => b" Weak",
            Form::Lam => b" Lam",
            Form::App => b" App",
            Form::BoxNode => b" Box",
            Form::Door => b" Door",
            Form::FixBox => b" FixBox",
            Form::Root => b" Root",
            Form::Pair => b" Pair",
            Form::Proj(side) => part_name(side),
        }
    }

    /// How many numbers its line has.
    pub(crate) fn count(self) -> u8
        ensures { result ≡ count_of self }
    {
        match self {
            Form::Weak | Form::Root => 1,
            Form::Const
            | Form::Succ
            | Form::Pred
            | Form::Der
            | Form::BoxNode
            | Form::Door
            | Form::Proj(_) => 2,
            Form::Binary(_) | Form::Con | Form::Lam | Form::App | Form::FixBox | Form::Pair => 3,
            Form::Ifz => 4,
        }
    }

    /// The node of this form with one number.
    pub(crate) fn of_one(self, a: u32) -> Option<Node>
        ensures { result ≡ one_node self a }
    {
        match self {
            Form::Weak => Some(Node::Weak { variable: a }),
            Form::Root => Some(Node::Root { wire: a }),
            _ => None,
        }
    }

    /// The node of this form with two numbers, a constant aside.
    pub(crate) fn of_two(self, a: u32, b: u32) -> Option<Node>
        ensures { result ≡ two_node self a b }
    {
        match self {
            Form::Succ => Some(Node::Succ {
                operand: a,
                wire: b,
            }),
            Form::Pred => Some(Node::Pred {
                operand: a,
                wire: b,
            }),
            Form::Der => Some(Node::Der {
                wire: a,
                variable: b,
            }),
            Form::BoxNode => Some(Node::BoxNode {
                inside: a,
                outside: b,
            }),
            Form::Door => Some(Node::Door {
                inside: a,
                outside: b,
            }),
            Form::Proj(side) => Some(Node::Proj {
                side,
                operand: a,
                wire: b,
            }),
            _ => None,
        }
    }

    /// The node of this form with three numbers.
    pub(crate) fn of_three(self, a: u32, b: u32, w: u32) -> Option<Node>
        ensures { result ≡ three_node self a b w }
    {
        match self {
            Form::Binary(operator) => Some(Node::Binary {
                operator,
                left: a,
                right: b,
                wire: w,
            }),
            Form::Con => Some(Node::Con {
                left: a,
                right: b,
                wire: w,
            }),
            Form::Lam => Some(Node::Lam {
                body: a,
                variable: b,
                wire: w,
            }),
            Form::App => Some(Node::App {
                function: a,
                argument: b,
                wire: w,
            }),
            Form::FixBox => Some(Node::FixBox {
                body: a,
                variable: b,
                wire: w,
            }),
            Form::Pair => Some(Node::Pair {
                left: a,
                right: b,
                wire: w,
            }),
            _ => None,
        }
    }

    /// The node of this form with four numbers.
    pub(crate) fn of_four(self, c: u32, p: u32, q: u32, w: u32) -> Option<Node>
        ensures { result ≡ four_node self c p q w }
    {
        match self {
            Form::Ifz => Some(Node::Ifz {
                condition: c,
                then: p,
                otherwise: q,
                wire: w,
            }),
            _ => None,
        }
    }
}

/// The form whose name the text begins with, and what stands behind it.
pub(crate) fn form_in(text: &[u8]) -> Option<(Form, &[u8])>
    ensures { option_map (λ r. (r.0, r.1.now)) result ≡ form_among all_forms text.now }
{
    let forms = [
        Form::Const,
        Form::Succ,
        Form::Pred,
        Form::Binary(Operator::Plus),
        Form::Binary(Operator::Minus),
        Form::Binary(Operator::Times),
        Form::Ifz,
        Form::Der,
        Form::Con,
        Form::Weak,
        Form::Lam,
        Form::App,
        Form::BoxNode,
        Form::Door,
        Form::FixBox,
        Form::Root,
        Form::Pair,
        Form::Proj(Side::Left),
        Form::Proj(Side::Right),
    ];
    first_form(&forms, text)
}

/// The first of these forms whose name the text begins with, and what stands behind it.
fn first_form<'a>(forms: &[Form], text: &'a [u8]) -> Option<(Form, &'a [u8])>
    ensures { option_map (λ r. (r.0, r.1.now)) result ≡ form_among forms.now text.now }
{
    let mut left = forms;
    while let [form, others @ ..] = left {
        if let Some(rest) = behind(form.name(), text) {
            return Some((*form, rest));
        }
        left = others;
    }
    None
}
