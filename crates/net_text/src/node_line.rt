//! The line of a node. It is read by its beginning, and is right where the line of the node that was read is that line.

ghost use Rattle.std.specs.Prelude.{◌≡◌, IfOk, Some};
ghost use Rattle.std.specs.Option.{option_map};
ghost use Rattle.std.specs.Str.{bytes_eq};
ghost use Rattle.net_build.specs.declared.node.Node.TheVariants.{Const};
ghost use Rattle.net_text.specs.FirstFault.{node_at};
ghost use Rattle.net_text.specs.Listing.{node_line};
ghost use Rattle.net_text.specs.NodeText.{constant, four_node, from_form, from_name, node_in, node_with, numbers_in, one_node, small_node};
ghost use Rattle.net_text.specs.NodeText.{three_node, two_node};
ghost use Rattle.net_text.specs.Scanning.{fitting_node, in_half, words_among};

use crate::form::{Form, form_in};
use crate::print::push_node;
use crate::scan::{behind, number};
use itoa::Buffer;
use net_build::Node;
use std::alloc::{AllocError, Global};

/// The node of this number that has this line; `None` where no node has.
///
/// # Errors
///
/// `AllocError` when memory runs out.
pub(crate) fn node_at(alloc: Global, k: u64, line: &[u8]) -> Result<Option<Node>, AllocError>
    ensures { IfOk result (λ o. o ≡ node_at k line.now) }
{
    match node_in(alloc, k, line)? {
        Some(node) => {
            if is_line(alloc, k, node, line)? {
                Ok(Some(node))
            } else {
                Ok(None)
            }
        }
        None => Ok(None),
    }
}

/// Whether this is the line of the node.
fn is_line(alloc: Global, k: u64, node: Node, line: &[u8]) -> Result<bool, AllocError>
    ensures { IfOk result (λ b. b ≡ bytes_eq line.now (node_line k node)) }
{
    let mut text = Vec::new(alloc);
    push_node(&mut text, k, node)?;
    Ok(line == text.as_slice())
}

/// The node that a line begins as.
fn node_in(alloc: Global, k: u64, line: &[u8]) -> Result<Option<Node>, AllocError>
    ensures { IfOk result (λ o. o ≡ fitting_node (node_in k line.now)) }
{
    let Some(rest) = behind(b"node ", line) else {
        return Ok(None);
    };
    let mut buffer = Buffer::new();
    match behind(buffer.format(k).as_bytes(), rest) {
        Some(rest) => from_name(alloc, rest),
        None => Ok(None),
    }
}

/// The same from its name on.
fn from_name(alloc: Global, text: &[u8]) -> Result<Option<Node>, AllocError>
    ensures { IfOk result (λ o. o ≡ fitting_node (from_name text.now)) }
{
    match form_in(text) {
        Some((form, rest)) => from_form(alloc, form, rest),
        None => Ok(None),
    }
}

/// The node of this form whose numbers stand here.
fn from_form(alloc: Global, form: Form, text: &[u8]) -> Result<Option<Node>, AllocError>
    ensures { IfOk result (λ o. o ≡ fitting_node (from_form (form, text.now))) }
{
    match numbers_in(alloc, form.count(), text)? {
        Some(numbers) => Ok(node_with(form, &numbers)),
        None => Ok(None),
    }
}

/// So many numbers, each behind a space, up to the end of the line; `None` also where one has more than 64 bits.
fn numbers_in(alloc: Global, count: u8, text: &[u8]) -> Result<Option<Vec<u64>>, AllocError>
    ensures { IfOk result (λ o. option_map (λ v. v.items) o ≡ words_among (numbers_in count text.now)) }
{
    let mut numbers = Vec::new(alloc);
    let mut rest = text;
    for _i in 0..count {
        let Some(more) = behind(b" ", rest) else {
            return Ok(None);
        };
        let (n, more) = number(more);
        let Some(n) = n else {
            return Ok(None);
        };
        numbers.push(n)?;
        rest = more;
    }
    match behind(b"\n", rest) {
        Some([]) => Ok(Some(numbers)),
        _ => Ok(None),
    }
}

/// The node of this form with these numbers.
fn node_with(form: Form, numbers: &[u64]) -> Option<Node>
    ensures { result ≡ fitting_node (node_with form numbers.now) }
{
    match form {
        Form::Const => constant(numbers),
        _ => small_node(form, numbers),
    }
}

/// A constant, its number before its wire.
fn constant(numbers: &[u64]) -> Option<Node>
    ensures { result ≡ fitting_node (constant numbers.now) }
{
    match numbers {
        [v, w] => constant_on(*v, *w),
        _ => None,
    }
}

/// A constant of this number, if its wire fits into 32 bits.
fn constant_on(v: u64, w: u64) -> Option<Node>
    ensures { result ≡ fitting_node (Some (Const v w)) }
{
    match half(w) {
        Some(w) => Some(Node::Const { value: v, wire: w }),
        None => None,
    }
}

/// Any other node, by how many numbers there are.
fn small_node(form: Form, numbers: &[u64]) -> Option<Node>
    ensures { result ≡ fitting_node (small_node form numbers.now) }
{
    match numbers {
        [a] => with_one(form, *a),
        [a, b] => with_two(form, *a, *b),
        [a, b, c] => with_three(form, *a, *b, *c),
        [a, b, c, d] => with_four(form, *a, *b, *c, *d),
        _ => None,
    }
}

/// A node of one number, if the number fits and the form takes one.
fn with_one(form: Form, a: u64) -> Option<Node>
    ensures { result ≡ fitting_node (one_node form a) }
{
    match half(a) {
        Some(a) => form.of_one(a),
        None => None,
    }
}

/// A node of two numbers, if both fit and the form takes two.
fn with_two(form: Form, a: u64, b: u64) -> Option<Node>
    ensures { result ≡ fitting_node (two_node form a b) }
{
    match (half(a), half(b)) {
        (Some(a), Some(b)) => form.of_two(a, b),
        _ => None,
    }
}

/// A node of three numbers, if they fit and the form takes three.
fn with_three(form: Form, a: u64, b: u64, c: u64) -> Option<Node>
    ensures { result ≡ fitting_node (three_node form a b c) }
{
    match (half(a), half(b), half(c)) {
        (Some(a), Some(b), Some(c)) => form.of_three(a, b, c),
        _ => None,
    }
}

/// A node of four numbers, if they fit and the form takes four.
fn with_four(form: Form, a: u64, b: u64, c: u64, d: u64) -> Option<Node>
    ensures { result ≡ fitting_node (four_node form a b c d) }
{
    match (half(a), half(b), half(c), half(d)) {
        (Some(a), Some(b), Some(c), Some(d)) => form.of_four(a, b, c, d),
        _ => None,
    }
}

/// A number of 32 bits, or none where it is larger.
fn half(n: u64) -> Option<u32>
    ensures { result ≡ in_half n }
{
    if n <= u32::MAX as u64 {
        Some(n as u32)
    } else {
        None
    }
}
