//! The text of the module by which a circuit is called more than once.

ghost use Rattle.std.specs.Prelude.{◌≡◌, ◌++◌, OnOk};
ghost use Rattle.circuit_calls.specs.Lines.{each};
ghost use Rattle.circuit_calls.specs.CallText.{call_port, call_note, call_joint, call_ports, call_body, call_text};

use crate::call_parts as parts;
use crate::number::push_number;
use std::alloc::AllocError;

/// Appends the text of a module by which the circuit of this name, with a port for each of so many arguments, is called more than once.
///
/// # Errors
///
/// `AllocError` where there is no memory for the text; what is appended by then says nothing.
#[tactic(auto, unfolding(crate::specs::CallText::call_text))]
pub fn push_call(text: &mut Vec<u8>, name: &[u8], arguments: u32) -> Result<(), AllocError>
    ensures { OnOk result (text.new.items ≡ text.old.items ++ call_text name.now arguments) }
{
    text.extend_from_slice(parts::head())?;
    text.extend_from_slice(name)?;
    push_ports(text, arguments)?;
    push_body(text, name, arguments)
}

/// Appends the port of an argument.
#[tactic(auto, unfolding(crate::specs::CallText::call_port))]
fn push_port(text: &mut Vec<u8>, i: u32) -> Result<(), AllocError>
    ensures { OnOk result (text.new.items ≡ text.old.items ++ call_port i) }
{
    push_number(text, b",\n  input wire [63:0] arg", i.into())
}

/// Appends the ports of so many arguments.
fn push_each_port(text: &mut Vec<u8>, n: u32) -> Result<(), AllocError>
    ensures { OnOk result (text.new.items ≡ text.old.items ++ each call_port n) }
{
    for i in 0..n {
        push_port(text, i)?;
    }
    Ok(())
}

/// What is said of so many arguments.
fn note(n: u32) -> &'static [u8]
    ensures { result.now ≡ call_note n }
{
    if n == 0 {
        b""
    } else {
        b"  // arg0 and so on: the arguments, in order, as they are at the edge at which a call begins; later they may be anything.\n"
    }
}

/// Appends what stands behind the module's name and in front of the instance's, for so many arguments.
#[tactic(auto, unfolding(crate::specs::CallText::call_ports))]
fn push_ports(text: &mut Vec<u8>, n: u32) -> Result<(), AllocError>
    ensures { OnOk result (text.new.items ≡ text.old.items ++ call_ports n) }
{
    text.extend_from_slice(parts::begin())?;
    push_each_port(text, n)?;
    text.extend_from_slice(parts::more())?;
    text.extend_from_slice(note(n))?;
    text.extend_from_slice(parts::notes())
}

/// Appends the port of an argument where the circuit is used.
#[tactic(auto, unfolding(crate::specs::CallText::call_joint))]
fn push_joint(text: &mut Vec<u8>, i: u32) -> Result<(), AllocError>
    ensures { OnOk result (text.new.items ≡ text.old.items ++ call_joint i) }
{
    push_number(text, b",\n    .arg", i.into())?;
    push_number(text, b"(arg", i.into())?;
    text.extend_from_slice(b")")
}

/// Appends these ports of so many arguments.
fn push_each_joint(text: &mut Vec<u8>, n: u32) -> Result<(), AllocError>
    ensures { OnOk result (text.new.items ≡ text.old.items ++ each call_joint n) }
{
    for i in 0..n {
        push_joint(text, i)?;
    }
    Ok(())
}

/// Appends the instance of the circuit of this name with so many arguments, and the block of the clock.
#[tactic(auto, unfolding(crate::specs::CallText::call_body))]
fn push_body(text: &mut Vec<u8>, name: &[u8], n: u32) -> Result<(), AllocError>
    ensures { OnOk result (text.new.items ≡ text.old.items ++ call_body name.now n) }
{
    text.extend_from_slice(name)?;
    text.extend_from_slice(parts::reset())?;
    push_each_joint(text, n)?;
    text.extend_from_slice(parts::last())
}
