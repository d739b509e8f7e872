//! The whole text of a circuit.

ghost use Rattle.std.specs.Prelude.{◌≡◌, ◌++◌, ◌+◌, ◌*◌, ◌≤◌, ◌<◌, ◌^◌, OnOk, IfOk, length, map};
ghost use Rattle.open_net_laws.specs.Numbers.{places_from};
ghost use Rattle.verilog_tree.specs.Names.{text_of};
ghost use Rattle.verilog_tree.specs.Views.{item_of};
ghost use Rattle.circuit_made.specs.CircuitText.{head_text, circuit_text, Prints};
ghost use Rattle.circuit_made.specs.Parts.{front_text, back_text, around_text};

use crate::circuit::circuit_items;
use crate::text::push_module;
use crate::words::push_number;
use bumpalo::Bump;
use net_build::Net;
use std::alloc::{AllocError, Global};
use verilog_tree::Item;

/// Where a function's arguments are in its net, of which each gets a port.
#[derive(Clone, Copy)]
pub struct Ports {
    /// The place of the first one in the list of nodes; each third node from there on is the next one's.
    pub first: u32,
    /// How many there are.
    pub count: u32,
}

/// Appends the places of so many arguments.
#[tactic(auto, using(crate::proofs::Whole::one_place))]
fn push_places(places: &mut Vec<u32>, first: u32, count: u32) -> Result<(), AllocError>
    requires few { first + 3 * count < 2 ^ 32 }
    ensures { OnOk result (places.new.items ≡ places.old.items ++ places_from first count) }
{
    if count > 0 {
        places.push(first)?;
        push_places(places, first + 3, count - 1)?;
    }
    Ok(())
}

/// The places of the arguments in the list of nodes.
#[tactic(auto, using(crate::proofs::Whole::few_places))]
fn places(alloc: Global, ports: Ports) -> Result<Vec<u32>, AllocError>
    requires few { ports.first + 3 * ports.count < 2 ^ 32 }
    ensures places { IfOk result (λ v. v.items ≡ places_from ports.first ports.count) }
    ensures few { IfOk result (λ v. length v.items < 2 ^ 31) }
{
    let mut list = Vec::new(alloc);
    push_places(&mut list, ports.first, ports.count)?;
    Ok(list)
}

/// Appends the first line.
#[tactic(auto, unfolding(crate::specs::CircuitText::head_text))]
fn push_head(text: &mut Vec<u8>, nodes: u64, wires: u64) -> Result<(), AllocError>
    ensures { OnOk result (text.new.items ≡ text.old.items ++ head_text nodes wires) }
{
    push_number(text, b"// goi circuit 1: the net of a program, of ", nodes)?;
    push_number(text, b" nodes and ", wires)?;
    text.extend_from_slice(b" wires, with a processor of one token.\n")
}

/// Appends the directives in front of the module.
#[tactic(auto, unfolding(crate::specs::Parts::front_text))]
fn push_front(text: &mut Vec<u8>) -> Result<(), AllocError>
    ensures { OnOk result (text.new.items ≡ text.old.items ++ front_text) }
{
    text.extend_from_slice(
        b"// verilator lint_save\n// verilator lint_off DECLFILENAME\n// verilator lint_off UNUSED\n`default_nettype none\n",
    )
}

/// Appends those behind it.
#[tactic(auto, unfolding(crate::specs::Parts::back_text))]
fn push_back(text: &mut Vec<u8>) -> Result<(), AllocError>
    ensures { OnOk result (text.new.items ≡ text.old.items ++ back_text) }
{
    text.extend_from_slice(b"`default_nettype wire\n// verilator lint_restore\n")
}

/// Appends the module with its directives.
#[tactic(auto, unfolding(crate::specs::Parts::around_text))]
fn push_around(text: &mut Vec<u8>, name: &[u8], items: &[Item]) -> Result<(), AllocError>
    ensures { OnOk result (text.new.items ≡ text.old.items ++ around_text (text_of name.now) (map item_of items.now)) }
{
    push_front(text)?;
    push_module(text, name, items)?;
    push_back(text)
}

/// Appends the text of these items.
fn push_circuit(
    text: &mut Vec<u8>,
    net: &Net,
    name: &[u8],
    items: &[Item],
) -> Result<(), AllocError>
    ensures { OnOk result (text.new.items ≡ text.old.items ++ circuit_text (text_of name.now) net.now (map item_of items.now)) }
{
    push_head(text, net.node_count().into(), net.wire_count().into())?;
    push_around(text, name, items)?;
    Ok(())
}

/// The text of these items.
fn text_of(alloc: Global, net: &Net, name: &[u8], items: &[Item]) -> Result<Vec<u8>, AllocError>
    ensures { IfOk result (λ v. v.items ≡ circuit_text (text_of name.now) net.now (map item_of items.now)) }
{
    let mut text = Vec::new(alloc);
    push_circuit(&mut text, net, name, items)?;
    Ok(text)
}

/// The text of a net's circuit, with a port for each of these places.
fn circuit_at(
    alloc: Global,
    net: &Net,
    cells: u32,
    forks: u32,
    name: &[u8],
    places: &[u32],
) -> Result<Vec<u8>, AllocError>
    requires cells { 1 ≤ cells }
    requires few_cells { cells < 2 ^ 31 }
    requires forks { 1 ≤ forks }
    requires few_forks { forks < 2 ^ 31 }
    requires few { length places.now < 2 ^ 31 }
    ensures { IfOk result (λ v. Prints (text_of name.now) net.now places.now cells forks v.items) }
{
    let bump = Bump::new(alloc);
    let items = circuit_items(alloc, &bump, net, places, cells, forks)?;
    let text = text_of(alloc, net, name, items)?;
    Ok(text)
}

/// The text of a net's circuit, with so many cells and forks, as a module of this name, where these nodes get ports:
/// `verilog_names::is_module_name` tells which names are taken.
///
/// # Errors
///
/// `AllocError` where there is no memory for the text.
pub fn print_circuit(
    alloc: Global,
    net: &Net,
    cells: u32,
    forks: u32,
    name: &[u8],
    ports: Ports,
) -> Result<Vec<u8>, AllocError>
    requires cells { 1 ≤ cells }
    requires few_cells { cells < 2 ^ 31 }
    requires forks { 1 ≤ forks }
    requires few_forks { forks < 2 ^ 31 }
    requires few { ports.first + 3 * ports.count < 2 ^ 32 }
    ensures { IfOk result (λ v.
        Prints (text_of name.now) net.now (places_from ports.first ports.count) cells forks v.items) }
{
    let list = places(alloc, ports)?;
    let text = circuit_at(alloc, net, cells, forks, name, &list)?;
    Ok(text)
}
