//! The line of a wire. It is read by its beginning, and is right where the line of the wire that was read is that line.

ghost use Rattle.std.specs.Prelude.{◌≡◌, IfOk, Some};
ghost use Rattle.std.specs.Option.{option_map};
ghost use Rattle.std.specs.Str.{bytes_eq};
ghost use Rattle.pcf_values.specs.Views.{ty_of};
ghost use Rattle.net_build.specs.Views.{wire_of};
ghost use Rattle.net_text.specs.FirstFault.{wire_at};
ghost use Rattle.net_text.specs.Listing.{wire_line};
ghost use Rattle.net_text.specs.Scanning.{fitting_wire};
ghost use Rattle.net_text.specs.WireText.{from_depth, from_kind, from_type, kind_in, wire_in};

use crate::print::push_wire;
use crate::scan::{behind, number};
use crate::types::{is_within, read_type};
use itoa::Buffer;
use net_build::{Wire, WireKind};
use pcf_values::Ty;
use std::alloc::{AllocError, Global};

/// The wire of this number that has this line, where its type is no higher than the bound.
pub(crate) fn wire_at(
    alloc: Global,
    height: u32,
    k: u64,
    line: &[u8],
) -> Result<Option<Wire>, AllocError>
    ensures { IfOk result (λ o. option_map wire_of o ≡ wire_at height k line.now) }
{
    match wire_in(alloc, height, k, line)? {
        Some(wire) => {
            if is_line(alloc, k, &wire, line)? {
                Ok(Some(wire))
            } else {
                Ok(None)
            }
        }
        None => Ok(None),
    }
}

/// Whether this is the line of the wire.
fn is_line(alloc: Global, k: u64, wire: &Wire, line: &[u8]) -> Result<bool, AllocError>
    ensures { IfOk result (λ b. b ≡ bytes_eq line.now (wire_line k (wire_of wire.now))) }
{
    let mut text = Vec::new(alloc);
    push_wire(alloc, &mut text, k, wire)?;
    Ok(line == text.as_slice())
}

/// The wire that a line begins as.
fn wire_in(alloc: Global, height: u32, k: u64, line: &[u8]) -> Result<Option<Wire>, AllocError>
    ensures { IfOk result (λ o. option_map wire_of o ≡ fitting_wire height (wire_in height k line.now)) }
{
    let Some(rest) = behind(b"wire ", line) else {
        return Ok(None);
    };
    let mut buffer = Buffer::new();
    match behind(buffer.format(k).as_bytes(), rest) {
        Some(rest) => from_kind(alloc, height, rest),
        None => Ok(None),
    }
}

/// The same from its kind on.
fn from_kind(alloc: Global, height: u32, text: &[u8]) -> Result<Option<Wire>, AllocError>
    ensures { IfOk result (λ o. option_map wire_of o ≡ fitting_wire height (from_kind height text.now)) }
{
    match kind_in(text) {
        Some((kind, rest)) => from_depth(alloc, height, kind, rest),
        None => Ok(None),
    }
}

/// The kind of a wire, between spaces, and what stands behind it.
fn kind_in(text: &[u8]) -> Option<(WireKind, &[u8])>
    ensures { option_map (λ r. (r.0, r.1.now)) result ≡ kind_in text.now }
{
    if let Some(rest) = behind(b" value ", text) {
        return Some((WireKind::Value, rest));
    }
    if let Some(rest) = behind(b" bang ", text) {
        return Some((WireKind::Bang, rest));
    }
    match behind(b" var ", text) {
        Some(rest) => Some((WireKind::Variable, rest)),
        None => None,
    }
}

/// The same from its depth on.
fn from_depth(
    alloc: Global,
    height: u32,
    kind: WireKind,
    text: &[u8],
) -> Result<Option<Wire>, AllocError>
    ensures { IfOk result (λ o. option_map wire_of o ≡ fitting_wire height (from_depth height (kind, text.now))) }
{
    let (depth, rest) = number(text);
    let Some(rest) = behind(b" ", rest) else {
        return Ok(None);
    };
    match depth {
        Some(depth) => from_type(alloc, height, kind, depth, rest),
        None => Ok(None),
    }
}

/// The same from its type on.
fn from_type(
    alloc: Global,
    height: u32,
    kind: WireKind,
    depth: u64,
    text: &[u8],
) -> Result<Option<Wire>, AllocError>
    ensures { IfOk result (λ o. option_map wire_of o ≡ fitting_wire height (from_type height kind depth text.now)) }
{
    let Some((ty, rest)) = read_type(alloc, text, height)? else {
        return Ok(None);
    };
    match behind(b"\n", rest) {
        Some([]) => Ok(fitting(height, kind, depth, Box::into_inner(ty))),
        _ => Ok(None),
    }
}

/// The wire, where its depth and its type are within the bounds.
fn fitting(height: u32, kind: WireKind, depth: u64, ty: Ty) -> Option<Wire>
    ensures { option_map wire_of result ≡ fitting_wire height (Some (record { kind = kind; depth = depth; type = ty_of ty })) }
{
    if depth <= u32::MAX as u64 && is_within(&ty, height) {
        Some(Wire {
            kind,
            depth: depth as u32,
            ty,
        })
    } else {
        None
    }
}
