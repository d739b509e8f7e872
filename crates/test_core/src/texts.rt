//! Nodes, nets, stacks and tokens as texts, so that a test is a table to read. A node or a call that isn't known is answered with want
//! of memory, which fails the test.

use move_rules::{Kind, Token};
use net_build::{Net, Node, Wire, WireKind};
use pcf_values::{Operator, Side, Ty, Val};
use std::alloc::{AllocError, Global};
use testing_gates::{cut, number};
use token_stacks::Stacks;

/// The node of an operator.
fn binary(operator: Operator, left: u32, right: u32, wire: u32) -> Node {
    Node::Binary {
        operator,
        left,
        right,
        wire,
    }
}

/// The node that takes a part of a pair.
fn proj(side: Side, operand: u32, wire: u32) -> Node {
    Node::Proj {
        side,
        operand,
        wire,
    }
}

/// A node as the listing has it: its name, and its wires in their order.
fn node(text: &str) -> Result<Node, AllocError> {
    let (name, rest) = cut(text, ' ');
    let (first, rest) = cut(rest, ' ');
    let (second, rest) = cut(rest, ' ');
    let (third, fourth) = cut(rest, ' ');
    let (a, b, c, d) = (number(first), number(second), number(third), number(fourth));
    match name {
        "Const" => Ok(Node::Const {
            value: a as u64,
            wire: b,
        }),
        "Succ" => Ok(Node::Succ {
            operand: a,
            wire: b,
        }),
        "Pred" => Ok(Node::Pred {
            operand: a,
            wire: b,
        }),
        "Plus" => Ok(binary(Operator::Plus, a, b, c)),
        "Minus" => Ok(binary(Operator::Minus, a, b, c)),
        "Times" => Ok(binary(Operator::Times, a, b, c)),
        "Ifz" => Ok(Node::Ifz {
            condition: a,
            then: b,
            otherwise: c,
            wire: d,
        }),
        "Der" => Ok(Node::Der {
            wire: a,
            variable: b,
        }),
        "Con" => Ok(Node::Con {
            left: a,
            right: b,
            wire: c,
        }),
        "Weak" => Ok(Node::Weak { variable: a }),
        "Lam" => Ok(Node::Lam {
            body: a,
            variable: b,
            wire: c,
        }),
        "App" => Ok(Node::App {
            function: a,
            argument: b,
            wire: c,
        }),
        "Box" => Ok(Node::BoxNode {
            inside: a,
            outside: b,
        }),
        "Door" => Ok(Node::Door {
            inside: a,
            outside: b,
        }),
        "FixBox" => Ok(Node::FixBox {
            body: a,
            variable: b,
            wire: c,
        }),
        "Root" => Ok(Node::Root { wire: a }),
        "Pair" => Ok(Node::Pair {
            left: a,
            right: b,
            wire: c,
        }),
        "Fst" => Ok(proj(Side::Left, a, b)),
        "Snd" => Ok(proj(Side::Right, a, b)),
        _ => Err(AllocError),
    }
}

/// So many wires. Moves look at nothing else of a wire than its number.
fn some_wires(alloc: Global, count: u32) -> Result<Vec<Wire>, AllocError> {
    let mut wires = Vec::new(alloc);
    for _ in 0..count {
        wires.push(Wire {
            kind: WireKind::Value,
            depth: 0,
            ty: Ty::Nat,
        })?;
    }
    Ok(wires)
}

/// The nodes of texts that are parted by `;`.
fn nodes(alloc: Global, texts: &str) -> Result<Vec<Node>, AllocError> {
    let mut list = Vec::new(alloc);
    for text in texts.split(';') {
        list.push(node(text)?)?;
    }
    Ok(list)
}

/// A net of these wires and these nodes, parted by `;`.
pub(crate) fn net_over(alloc: Global, wires: Vec<Wire>, texts: &str) -> Result<Net, AllocError> {
    let list = nodes(alloc, texts)?;
    if wires.len() < 4_294_967_296 && list.len() < 4_294_967_296 {
        Net::from_parts(alloc, wires, list)
    } else {
        Err(AllocError)
    }
}

/// A net of so many wires and these nodes, parted by `;`.
pub(crate) fn net(alloc: Global, count: u32, texts: &str) -> Result<Net, AllocError> {
    let wires = some_wires(alloc, count)?;
    net_over(alloc, wires, texts)
}

/// A call on stacks by its short name, and whether it found the shape that it wants. With `-` in front it is the call that goes back.
pub(crate) fn call(stacks: &mut Stacks, name: &str) -> Result<bool, AllocError> {
    match name {
        "R" => stacks.push_r()?,
        "L" => stacks.push_l()?,
        "*" => stacks.push_star()?,
        "fix" => stacks.fix_in()?,
        "l" => return stacks.wrap_left(),
        "r" => return stacks.wrap_right(),
        "box" => return stacks.box_in(),
        "door" => return stacks.door_out(),
        "again" => return stacks.again_in(),
        "argument" => return Ok(stacks.argument_in()),
        _ => return call_back(stacks, name),
    }
    Ok(true)
}

/// A call that goes back, by its name with `-` in front.
fn call_back(stacks: &mut Stacks, name: &str) -> Result<bool, AllocError> {
    match name {
        "-R" => Ok(stacks.pop_r()),
        "-L" => Ok(stacks.pop_l()),
        "-*" => Ok(stacks.pop_star()),
        "-fix" => Ok(stacks.fix_out()),
        "-l" => Ok(stacks.unwrap_left()),
        "-r" => Ok(stacks.unwrap_right()),
        "-box" => stacks.box_out(),
        "-door" => stacks.door_in(),
        "-again" => stacks.again_out(),
        "-argument" => stacks.argument_out(),
        _ => Err(AllocError),
    }
}

/// The stacks that these calls make of empty ones.
pub(crate) fn stacks(alloc: Global, calls: &str) -> Result<Stacks, AllocError> {
    let mut made = Stacks::empty(alloc);
    for name in calls.split_whitespace() {
        if !call(&mut made, name)? {
            return Err(AllocError);
        }
    }
    Ok(made)
}

/// `ask`, or an answer's value.
fn kind(word: &str) -> Kind {
    match word {
        "ask" => Kind::Ask,
        "overflow" => Kind::Ans(Val::Overflow),
        _ => Kind::Ans(Val::Number(number(word) as u64)),
    }
}

/// A token as it is written: its kind, its wire and direction, and the calls that make its stacks of empty ones.
#[derive(Clone, Copy)]
pub(crate) struct Written<'a> {
    kind: Kind,
    wire: u32,
    up: bool,
    calls: &'a str,
}

impl<'a> Written<'a> {
    /// A token of this kind at a place, as `2 up L R`.
    pub(crate) fn at(kind: Kind, place: &'a str) -> Written<'a> {
        let (wire, rest) = cut(place, ' ');
        let (way, calls) = cut(rest, ' ');
        Written {
            kind,
            wire: number(wire),
            up: way == "up",
            calls,
        }
    }

    /// A question, as `ask 2 up L R`, or an answer, as `5 2 up`.
    pub(crate) fn token(text: &'a str) -> Written<'a> {
        let (word, place) = cut(text, ' ');
        Written::at(kind(word), place)
    }

    /// The same with its direction turned.
    pub(crate) fn turned(self) -> Written<'a> {
        Written {
            up: !self.up,
            ..self
        }
    }

    /// The token itself.
    pub(crate) fn made(self, alloc: Global) -> Result<Token, AllocError> {
        Ok(Token {
            wire: self.wire,
            up: self.up,
            kind: self.kind,
            stacks: stacks(alloc, self.calls)?,
        })
    }

    /// Whether that is the token.
    pub(crate) fn is(self, alloc: Global, token: &Token) -> Result<bool, AllocError> {
        Ok(self.made(alloc)?.same(token))
    }
}
