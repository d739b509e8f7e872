//! The listing of a net.

ghost use Rattle.std.specs.Prelude.{◌≡◌, ◌++◌, ℕ, List, [], ◌∷◌, codes, decimal, map, IfOk, OnOk};
ghost use Rattle.net_build.specs.Nets.{premises, conclusions};
ghost use Rattle.net_build.specs.Found.{present};
ghost use Rattle.net_build.specs.Views.{wire_of};
ghost use Rattle.pcf_reader.specs.Printed.{ty_text};
ghost use Rattle.net_text.specs.Listing.{kind_text, wire_line, numbers_text, name_text, numbers_of, node_line, lines_of, listing};

use crate::form::{operator_name, part_name};
use itoa::Buffer;
use net_build::{Net, Node, Wire, WireKind};
use pcf_reader::print_ty;
use std::alloc::{AllocError, Global};

/// The listing of a net, with a line for each wire and each node by number.
///
/// # Errors
///
/// `AllocError` where there is no memory for the text.
pub fn print_net(alloc: Global, net: &Net) -> Result<Vec<u8>, AllocError>
    ensures { IfOk result (λ v. v.items ≡ listing net.now) }
{
    let mut text = Vec::from_slice(alloc, b"net 1\n")?;
    push_wires(alloc, &mut text, net.wires())?;
    push_nodes(&mut text, net.nodes())?;
    text.extend_from_slice(b"end\n")?;
    Ok(text)
}

/// Appends the line of each wire.
fn push_wires(alloc: Global, text: &mut Vec<u8>, wires: &[Wire]) -> Result<(), AllocError>
    ensures { OnOk result (text.new.items ≡ text.old.items ++ lines_of wire_line 0 (map wire_of wires.now)) }
{
    for (n, wire) in wires.iter().enumerate() {
        push_wire(alloc, text, n as u64, wire)?;
    }
    Ok(())
}

/// Appends the line of each node.
fn push_nodes(text: &mut Vec<u8>, nodes: &[Node]) -> Result<(), AllocError>
    ensures { OnOk result (text.new.items ≡ text.old.items ++ lines_of node_line 0 nodes.now) }
{
    for (n, node) in nodes.iter().enumerate() {
        push_node(text, n as u64, *node)?;
    }
    Ok(())
}

/// Puts the line of a wire, with its number, behind what is there.
pub(crate) fn push_wire(
    alloc: Global,
    text: &mut Vec<u8>,
    n: u64,
    wire: &Wire,
) -> Result<(), AllocError>
    ensures { OnOk result (text.new.items ≡ text.old.items ++ wire_line n (wire_of wire.now)) }
{
    push_number(text, b"wire ", n)?;
    push_number(text, kind_text(wire.kind), wire.depth.into())?;
    push_type(alloc, text, wire)?;
    Ok(())
}

/// Appends a space, the type of the wire and a line feed.
fn push_type(alloc: Global, text: &mut Vec<u8>, wire: &Wire) -> Result<(), AllocError>
    ensures { OnOk result (text.new.items ≡ text.old.items ++ (codes " " ++ (ty_text (wire_of wire.now).type ++ codes "\n"))) }
{
    let ty = print_ty(alloc, &wire.ty)?;
    push_line(text, b" ", &ty)
}

/// The word of a kind of wires.
fn kind_text(kind: WireKind) -> &'static [u8]
    ensures { result.now ≡ kind_text kind }
{
    match kind {
        WireKind::Value => b" value ",
        WireKind::Bang => b" bang ",
        WireKind::Variable => b" var ",
    }
}

/// Puts the line of a node, with its number, behind what is there.
pub(crate) fn push_node(text: &mut Vec<u8>, n: u64, node: Node) -> Result<(), AllocError>
    ensures { OnOk result (text.new.items ≡ text.old.items ++ node_line n node) }
{
    push_number(text, b"node ", n)?;
    text.extend_from_slice(name_text(node))?;
    push_numbers(text, node)?;
    Ok(())
}

/// The name of a node, behind a space, as a listing has it.
pub fn name_text(node: Node) -> &'static [u8]
    ensures { result.now ≡ name_text node }
{
    match node {
        Node::Const { .. } => b" Const",
        Node::Succ { .. } => b" Succ",
        Node::Pred { .. } => b" Pred",
        Node::Binary { operator, .. } => operator_name(operator),
        Node::Ifz { .. } => b" Ifz",
        Node::Der { .. } => b" Der",
        Node::Con { .. } => b" Con",
        Node::Weak { .. } => b" Weak",
        Node::Lam { .. } => b" Lam",
        Node::App { .. } => b" App",
        Node::BoxNode { .. } => b" Box",
        Node::Door { .. } => b" Door",
        Node::FixBox { .. } => b" FixBox",
        Node::Root { .. } => b" Root",
        Node::Pair { .. } => b" Pair",
        Node::Proj { side, .. } => part_name(side),
    }
}

/// Appends the numbers of a node and a line feed.
fn push_numbers(text: &mut Vec<u8>, node: Node) -> Result<(), AllocError>
    ensures { OnOk result (text.new.items ≡ text.old.items ++ numbers_text (numbers_of node)) }
{
    push_constant(text, node)?;
    let (first, second, third) = node.premises();
    let (fourth, fifth) = node.conclusions();
    push_wire_numbers(text, &[first, second, third, fourth, fifth])
}

/// Appends the number that a constant has before those of its wires.
fn push_constant(text: &mut Vec<u8>, node: Node) -> Result<(), AllocError>
    ensures { OnOk result
        (text.new.items ++ numbers_text (premises node ++ conclusions node) ≡ text.old.items ++ numbers_text (numbers_of node)) }
{
    match node {
        Node::Const { value, .. } => push_number(text, b" ", value),
        _ => Ok(()),
    }
}

/// Appends the number of each wire that is there, and then a line feed.
fn push_wire_numbers(text: &mut Vec<u8>, wires: &[Option<u32>]) -> Result<(), AllocError>
    ensures { OnOk result (text.new.items ≡ text.old.items ++ numbers_text (present wires.now)) }
{
    let mut rest = wires;
    while let [wire, after @ ..] = rest {
        push_wire_number(text, *wire)?;
        rest = after;
    }
    text.extend_from_slice(b"\n")?;
    Ok(())
}

/// Appends a space and the number of a wire, where there is one.
fn push_wire_number(text: &mut Vec<u8>, wire: Option<u32>) -> Result<(), AllocError>
    ensures { OnOk result ((ns : List ℕ) → text.new.items ++ numbers_text ns ≡ text.old.items ++ numbers_text (present (wire ∷ []) ++ ns)) }
{
    match wire {
        Some(n) => push_number(text, b" ", n.into()),
        None => Ok(()),
    }
}

/// Appends a word and a number.
fn push_number(text: &mut Vec<u8>, word: &[u8], n: u64) -> Result<(), AllocError>
    ensures { OnOk result (text.new.items ≡ text.old.items ++ (word.now ++ decimal n)) }
{
    let mut buffer = Buffer::new();
    text.extend_from_slice(word)?;
    text.extend_from_slice(buffer.format(n).as_bytes())?;
    Ok(())
}

/// Appends a word, a text and a line feed.
fn push_line(text: &mut Vec<u8>, word: &[u8], line: &[u8]) -> Result<(), AllocError>
    ensures { OnOk result (text.new.items ≡ text.old.items ++ (word.now ++ (line.now ++ codes "\n"))) }
{
    text.extend_from_slice(word)?;
    text.extend_from_slice(line)?;
    text.extend_from_slice(b"\n")?;
    Ok(())
}
