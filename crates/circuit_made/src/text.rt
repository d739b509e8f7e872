//! The text of a module.

ghost use Rattle.std.specs.Prelude.{◌≡◌, ◌++◌, OnOk, codes, map};
ghost use Rattle.verilog_tree.specs.Names.{text_of};
ghost use Rattle.verilog_tree.specs.Print.{width_text, port_text, is_port, more_ports, ports_text, module_text};
ghost use Rattle.verilog_tree.specs.Views.{width_of, item_of};
ghost use Rattle.circuit_made.specs.Parts.{next_port, after_name};

use crate::words::{push_name, push_range};
use std::alloc::AllocError;
use verilog_tree::{Item, Range, push_items};

/// Appends a word, a width and a name.
fn push_declared(
    text: &mut Vec<u8>,
    word: &[u8],
    range: &Range,
    name: &[u8],
) -> Result<(), AllocError>
    ensures { OnOk result (text.new.items ≡ text.old.items
        ++ (word.now ++ (width_text (width_of range.now) ++ codes (text_of name.now)))) }
{
    text.extend_from_slice(word)?;
    push_range(text, range)?;
    push_name(text, name)
}

/// Appends a port.
fn push_port(text: &mut Vec<u8>, item: &Item) -> Result<(), AllocError>
    ensures { OnOk result (text.new.items ≡ text.old.items ++ port_text (item_of item.now)) }
{
    match item {
        Item::Input(range, name) => push_declared(text, b"  input wire ", range, name),
        Item::Output(range, name) => push_declared(text, b"  output reg ", range, name),
        Item::Note(_) => Ok(()),
        Item::Gap => Ok(()),
        Item::Size(_, _) => Ok(()),
        Item::Constant(_, _, _) => Ok(()),
        Item::Reg(_, _) => Ok(()),
        Item::Memory(_, _, _) => Ok(()),
        Item::Wire(_, _, _) => Ok(()),
        Item::Settles(_) => Ok(()),
        Item::Clocked(_) => Ok(()),
    }
}

/// Whether an item is a port.
fn is_port(item: &Item) -> bool
    ensures { result ≡ is_port (item_of item.now) }
{
    match item {
        Item::Input(_, _) => true,
        Item::Output(_, _) => true,
        Item::Note(_) => false,
        Item::Gap => false,
        Item::Size(_, _) => false,
        Item::Constant(_, _, _) => false,
        Item::Reg(_, _) => false,
        Item::Memory(_, _, _) => false,
        Item::Wire(_, _, _) => false,
        Item::Settles(_) => false,
        Item::Clocked(_) => false,
    }
}

/// Appends a port behind others.
fn push_next(text: &mut Vec<u8>, item: &Item) -> Result<(), AllocError>
    ensures { OnOk result (text.new.items ≡ text.old.items ++ next_port (item_of item.now)) }
{
    if is_port(item) {
        text.extend_from_slice(b",\n")?;
        push_port(text, item)
    } else {
        Ok(())
    }
}

/// Appends the ports behind the first.
fn push_more(text: &mut Vec<u8>, items: &[Item]) -> Result<(), AllocError>
    ensures { OnOk result (text.new.items ≡ text.old.items ++ more_ports (map item_of items.now)) }
{
    for item in items {
        push_next(text, item)?;
    }
    Ok(())
}

/// Appends the list of ports.
fn push_ports(text: &mut Vec<u8>, items: &[Item]) -> Result<(), AllocError>
    ensures { OnOk result (text.new.items ≡ text.old.items ++ ports_text (map item_of items.now)) }
{
    match items {
        [] => Ok(()),
        [first, rest @ ..] => {
            push_port(text, first)?;
            push_more(text, rest)
        }
    }
}

/// Appends what stands behind a module's name.
#[tactic(auto, unfolding(crate::specs::Parts::after_name))]
fn push_body(text: &mut Vec<u8>, items: &[Item]) -> Result<(), AllocError>
    ensures { OnOk result (text.new.items ≡ text.old.items ++ after_name (map item_of items.now)) }
{
    text.extend_from_slice(b" (\n")?;
    push_ports(text, items)?;
    text.extend_from_slice(b"\n);\n")?;
    push_items(text, items)?;
    text.extend_from_slice(b"endmodule\n")
}

/// Appends the text of a module with this name, the first of whose items is a port.
///
/// # Errors
///
/// `AllocError` where there is no memory for the text; what is appended by then says nothing.
#[tactic(auto, unfolding(verilog_tree::specs::Print::module_text, crate::specs::Parts::after_name))]
pub fn push_module(text: &mut Vec<u8>, name: &[u8], items: &[Item]) -> Result<(), AllocError>
    ensures { OnOk result (text.new.items ≡ text.old.items ++ module_text (text_of name.now) (map item_of items.now)) }
{
    text.extend_from_slice(b"module ")?;
    push_name(text, name)?;
    push_body(text, items)
}
