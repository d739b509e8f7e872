//! Faults of a net's text.

ghost use Rattle.std.specs.Prelude.{◌≡◌};
ghost use Rattle.net_text.specs.declared.fault.NetTextFault.TheVariants.{NoMemory};

use net_check::NetFault;
use std::alloc::{AllocError, AllocFailed};

/// Why a text is not the listing of a program's net.
#[derive(Clone, Copy, Debug, PartialEq, Eq)]
pub enum NetTextFault {
    /// Memory was wanting. Nothing is said of the text.
    NoMemory,
    /// The least line, from 1, that can't stand there in a listing; one more than the number of lines where the text ends too early.
    BadLine(u32),
    /// The net is not sound, and this is its first fault.
    NotSound(NetFault),
    /// The net is that of no closed term of type `nat` that is no higher than the limit.
    NotOfTerm,
    /// There are more than `NET_TEXT_BYTES` bytes.
    TooLong,
}

impl From<AllocError> for NetTextFault {
    ghost from_gives = { λ _ e. e ≡ NoMemory };

    fn from(_error: AllocError) -> NetTextFault {
        NetTextFault::NoMemory
    }
}

impl<T: Drop> From<AllocFailed<T>> for NetTextFault {
    ghost from_gives = { λ _ e. e ≡ NoMemory };

    fn from(_error: AllocFailed<T>) -> NetTextFault {
        NetTextFault::NoMemory
    }
}
