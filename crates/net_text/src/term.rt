//! The program whose net a net is, or the fault that it is that of none.

ghost use Rattle.net_terms.specs.Limits.{most_term_height};
ghost use Rattle.net_terms.specs.OfTerm.{OfNone};
ghost use Rattle.net_text.specs.Steps.{Answers};

use crate::NetTextFault;
use net_build::{Net, law_built_sound};
use net_check::{NetFault, check};
use net_terms::limits::TERM_HEIGHT;
use net_terms::term_within;
use pcf_values::Typed;
use std::alloc::Global;

/// The closed term of type `nat` of which the net is built, where it is no higher than `net_terms::limits::TERM_HEIGHT`: there is at most
/// one. A net that isn't sound is that of none. Where the net has n nodes, the term that is read from it is h high, and n * (2 * h + 4) is
/// 2^32 or more, it may count as too large for memory; a sound net whose listing is within `limits::NET_TEXT_BYTES` has too few nodes.
///
/// # Errors
///
/// `NetTextFault::NotOfTerm` where there is no such term, and `NoMemory`.
pub fn term_of(alloc: Global, net: &Net) -> Result<Typed, NetTextFault>
    ensures { Answers most_term_height net.now result }
{
    law_built_sound();
    match check(alloc, net) {
        Ok(()) => term_or_fault(alloc, net),
        Err(NetFault::NoMemory) => Err(NetTextFault::NoMemory),
        Err(_) => Err(NetTextFault::NotOfTerm),
    }
}

/// The same without a look at whether the net is sound. On a sound net the time is that of the net's size.
pub(crate) fn term_or_fault(alloc: Global, net: &Net) -> Result<Typed, NetTextFault>
    ensures { Answers most_term_height net.now result }
{
    match term_within(alloc, net, TERM_HEIGHT)? {
        Some(program) => Ok(program),
        None => Err(NetTextFault::NotOfTerm),
    }
}
