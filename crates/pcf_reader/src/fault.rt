//! Why a text is no program.

use std::alloc::{AllocError, AllocFailed};

/// Why bytes are no program. Places are offsets in bytes from the beginning of the text.
///
/// `TooLong` is asked first, then `NotText` over the whole text, then the fault at the least place; at one place the order is that of
/// this list.
#[derive(Clone, Copy, Debug, PartialEq, Eq)]
pub enum ReadFault {
    /// Memory ran out.
    NoMemory,
    /// The bytes are not UTF-8; the longest prefix of them that is has this length.
    NotText(u32),
    /// No token, blank or comment begins here.
    BadToken(u32),
    /// A number above 18446744073709551615 begins here.
    NumberTooWide(u32),
    /// No program begins with the tokens up to this one, or the text ends here and is no program.
    Unexpected(u32),
    /// This token opens a phrase while `limits::OPEN_PHRASES` are open; or it is an operator or begins an argument, and the part of its
    /// sum, product or application that stands left of it is at least that high.
    TooDeep(u32),
    /// This token is the first whose count of nodes passes `limits::PROGRAM_NODES`.
    TooLarge(u32),
    /// There are more than `limits::PROGRAM_BYTES` bytes.
    TooLong,
}

impl From<AllocError> for ReadFault {
    ghost use Rattle.std.specs.Prelude.{◌≡◌};
    ghost use Rattle.pcf_reader.specs.declared.fault.ReadFault.TheVariants.{NoMemory};

    ghost from_gives = { λ _ e. e ≡ NoMemory };

    fn from(_e: AllocError) -> ReadFault {
        ReadFault::NoMemory
    }
}

impl<T: Drop> From<AllocFailed<T>> for ReadFault {
    ghost use Rattle.std.specs.Prelude.{◌≡◌};
    ghost use Rattle.pcf_reader.specs.declared.fault.ReadFault.TheVariants.{NoMemory};

    ghost from_gives = { λ _ e. e ≡ NoMemory };

    fn from(_e: AllocFailed<T>) -> ReadFault {
        ReadFault::NoMemory
    }
}
