//! The net that a text lists.
//!
//! The text is read once, line by line: the header, wires while there are any, and then nodes up to the last line.

ghost use Rattle.std.specs.Prelude.{◌≡◌, ◌+◌, ◌<◌, ◌≤◌, ◌↔◌, length, IsTrue, map, Ok, IfOk, IfErr, MatchResult};
ghost use Rattle.net_build.specs.Nets.{NetTree};
ghost use Rattle.net_build.specs.Views.{wire_of};
ghost use Rattle.net_text.specs.declared.fault.NetTextFault.TheVariants.{NoMemory};
ghost use Rattle.net_text.specs.FirstFault.{net_of_lines, no_wires, nodes_from, wires_from};
ghost use Rattle.net_text.specs.Limits.{most_text_bytes};
ghost use Rattle.text_lines.specs.Lines.{end_line, lines};
ghost use Rattle.net_text.specs.NetText.{TextOf};
ghost use Rattle.net_text.specs.Steps.{NetOfText};
ghost use Rattle.net_text.specs.Scanning.{Blames, with_wires};

use crate::NetTextFault;
use crate::limits::{NET_TEXT_BYTES, TYPE_HEIGHT};
use crate::node_line::node_at;
use crate::wire_line::wire_at;
use net_build::{Net, Node, Wire};
use std::alloc::{AllocError, Global};
use text_lines::{cut_line, is_end};

/// The net of which the bytes are the listing, or the first line that can't stand there in one. More than `limits::NET_TEXT_BYTES` bytes
/// are refused.
///
/// # Errors
///
/// `NetTextFault::TooLong` for more bytes than the limit, `BadLine` with the first line that can't stand there, and `NoMemory`.
pub fn read_net(alloc: Global, bytes: &[u8]) -> Result<Net, NetTextFault>
    ensures answer { NetOfText bytes.now result }
    // A listing within the limits is read, unless memory runs out.
    ensures listed { (net : NetTree) → TextOf bytes.now net → MatchResult result (λ n. n ≡ net) (λ e. e ≡ NoMemory) }
{
    if is_too_long(bytes) {
        return Err(NetTextFault::TooLong);
    }
    read_lines(alloc, TYPE_HEIGHT, bytes)
}

/// Whether there are more bytes than a net file may have.
fn is_too_long(bytes: &[u8]) -> bool
    ensures { IsTrue result ↔ (most_text_bytes < length bytes.now) }
{
    bytes.len() as u64 > NET_TEXT_BYTES
}

/// The net that lines list, with types no higher than the bound.
fn read_lines(alloc: Global, height: u32, bytes: &[u8]) -> Result<Net, NetTextFault>
    requires { length bytes.now ≤ most_text_bytes }
    ensures net { IfOk result (λ n. net_of_lines height (lines bytes.now) ≡ Ok n) }
    ensures fault { IfErr result (λ e. Blames (net_of_lines height (lines bytes.now)) e) }
{
    if bytes.len() == 0 {
        return Err(NetTextFault::BadLine(1));
    }
    let (line, rest) = cut_line(bytes);
    if line == b"net 1\n".as_slice() {
        read_parts(alloc, height, rest)
    } else {
        Err(NetTextFault::BadLine(1))
    }
}

/// The net of the lines behind the header.
fn read_parts(alloc: Global, height: u32, bytes: &[u8]) -> Result<Net, NetTextFault>
    requires { length bytes.now ≤ most_text_bytes }
    ensures net { IfOk result (λ n. wires_from height 0 2 (lines bytes.now) ≡ Ok n) }
    ensures fault { IfErr result (λ e. Blames (wires_from height 0 2 (lines bytes.now)) e) }
{
    let (wires, rest) = read_wires(alloc, height, bytes)?;
    let nodes = read_nodes(alloc, wires.len() as u32 + 2, rest)?;
    Ok(Net::from_parts(alloc, wires, nodes)?)
}

/// The wires whose lines stand in front, and the bytes from the first other line on.
fn read_wires(alloc: Global, height: u32, bytes: &[u8]) -> Result<(Vec<Wire>, &[u8]), AllocError>
    ensures wires { IfOk result
        (λ r. wires_from height 0 2 (lines bytes.now) ≡ with_wires (map wire_of r.0.items)
        (no_wires (nodes_from 0 (length r.0.items + 2) (lines r.1.now)))) }
    ensures few { IfOk result (λ r. length r.0.items + length r.1.now ≤ length bytes.now) }
{
    let mut wires = Vec::new(alloc);
    let mut rest = bytes;
    while rest.len() > 0 {
        let (line, more) = cut_line(rest);
        match wire_at(alloc, height, wires.len() as u64, line)? {
            Some(wire) => wires.push(wire)?,
            None => return Ok((wires, rest)),
        }
        rest = more;
    }
    Ok((wires, rest))
}

/// The nodes of the lines up to the last one. The first of these lines is line `first`.
fn read_nodes(alloc: Global, first: u32, bytes: &[u8]) -> Result<Vec<Node>, NetTextFault>
    requires { first + length bytes.now ≤ most_text_bytes + 2 }
    ensures nodes { IfOk result (λ v. nodes_from 0 first (lines bytes.now) ≡ Ok v.items) }
    ensures few { IfOk result (λ v. length v.items ≤ length bytes.now) }
    ensures fault { IfErr result (λ e. Blames (nodes_from 0 first (lines bytes.now)) e) }
{
    let mut nodes = Vec::new(alloc);
    let mut rest = bytes;
    let mut n = first;
    while rest.len() > 0 {
        let (line, more) = cut_line(rest);
        if is_end(line) {
            if more.len() > 0 {
                return Err(NetTextFault::BadLine(n + 1));
            }
            return Ok(nodes);
        }
        match node_at(alloc, nodes.len() as u64, line)? {
            Some(node) => nodes.push(node)?,
            None => return Err(NetTextFault::BadLine(n)),
        }
        n += 1;
        rest = more;
    }
    Err(NetTextFault::BadLine(n))
}
