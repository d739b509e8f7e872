//! The program that a net file lists, with its net, or the file's first fault.

ghost use Rattle.std.specs.Prelude.{◌≡◌, MatchResult};
ghost use Rattle.pcf_values.specs.Terms.{TermTree};
ghost use Rattle.net_text.specs.declared.fault.NetTextFault.TheVariants.{NoMemory};
ghost use Rattle.net_text.specs.Accepted.{Accepts, ListsProgram};
ghost use Rattle.net_text.specs.Steps.{AcceptsNet, Sorted};

use crate::NetTextFault;
use crate::read::read_net;
use crate::term::term_or_fault;
use net_build::Net;
use net_check::{NetFault, check, law_net_one_fault};
use pcf_values::Typed;
use std::alloc::Global;

/// The closed term of type `nat` whose net the bytes list, or the first fault: too many bytes, a line that can't stand where it stands, a
/// net that isn't sound, or a net that is no such term's. A term that is answered is no higher than `net_terms::limits::TERM_HEIGHT`.
///
/// # Errors
///
/// `NetTextFault::TooLong`, `BadLine`, `NotSound` or `NotOfTerm`, the first of these that is the case, in this order; or `NoMemory`.
pub fn accept(alloc: Global, bytes: &[u8]) -> Result<Typed, NetTextFault>
    ensures answer { Accepts bytes.now result }
    // A program that the bytes list is accepted, unless memory runs out.
    ensures accepted { (m : TermTree) → ListsProgram bytes.now m → MatchResult result (λ t. t.0 ≡ m) (λ e. e ≡ NoMemory) }
{
    match accept_net(alloc, bytes) {
        Ok((program, net)) => {
            drop(net);
            Ok(program)
        }
        Err(fault) => Err(fault),
    }
}

/// The same with the program's net, as it was read from the bytes, so that nobody has to build it again.
///
/// # Errors
///
/// As for `accept`.
pub fn accept_net(alloc: Global, bytes: &[u8]) -> Result<(Typed, Net), NetTextFault>
    ensures answer { AcceptsNet bytes.now result }
    // A program that the bytes list is accepted, unless memory runs out.
    ensures accepted { (m : TermTree) → ListsProgram bytes.now m → MatchResult result (λ p. p.0.0 ≡ m) (λ e. e ≡ NoMemory) }
{
    law_net_one_fault();
    match read_net(alloc, bytes) {
        Ok(net) => match program_of(alloc, &net) {
            Ok(program) => Ok((program, net)),
            Err(fault) => {
                drop(net);
                Err(fault)
            }
        },
        Err(fault) => Err(fault),
    }
}

/// The program whose net it is, or the net's first fault.
fn program_of(alloc: Global, net: &Net) -> Result<Typed, NetTextFault>
    ensures { Sorted net.now result }
{
    match check(alloc, net) {
        Ok(()) => term_or_fault(alloc, net),
        Err(NetFault::NoMemory) => Err(NetTextFault::NoMemory),
        Err(fault) => Err(NetTextFault::NotSound(fault)),
    }
}
