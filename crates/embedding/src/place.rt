//! Where a fault is.

ghost use Rattle.std.specs.Prelude.{◌≡◌};
ghost use Rattle.embedding.specs.Places.{place_of, read_place, type_place, by_value_place};

use cbv_terms::ByValueFault;
use pcf_reader::ReadFault;
use pcf_types::TypeFault;
use program_runs::ProgramFault;

/// The byte of the text at which a fault is, if it has a place.
pub(crate) fn place_of(fault: ProgramFault) -> Option<u32>
    ensures { result ≡ place_of fault }
{
    match fault {
        ProgramFault::Read(fault) => read_place(fault),
        ProgramFault::Typing(fault) => type_place(fault),
        ProgramFault::NotGround => None,
        ProgramFault::ByValue(fault) => by_value_place(fault),
    }
}

/// The place of a fault of reading, if it has one.
fn read_place(fault: ReadFault) -> Option<u32>
    ensures { result ≡ read_place fault }
{
    match fault {
        ReadFault::NotText(at)
        | ReadFault::BadToken(at)
        | ReadFault::NumberTooWide(at)
        | ReadFault::Unexpected(at)
        | ReadFault::TooDeep(at)
        | ReadFault::TooLarge(at) => Some(at),
        ReadFault::TooLong | ReadFault::NoMemory => None,
    }
}

/// The place of a fault of scope or type, if it has one.
fn type_place(fault: TypeFault) -> Option<u32>
    ensures { result ≡ type_place fault }
{
    match fault {
        TypeFault::Unbound(at)
        | TypeFault::FunctionWanted(at)
        | TypeFault::ArgumentMismatch(at)
        | TypeFault::NatWanted(at)
        | TypeFault::FixMismatch(at)
        | TypeFault::PairWanted(at) => Some(at),
        TypeFault::NoMemory => None,
    }
}

/// The place of a part that can't be called by value, if the fault has one.
fn by_value_place(fault: ByValueFault) -> Option<u32>
    ensures { result ≡ by_value_place fault }
{
    match fault {
        ByValueFault::ByValueFix(at) | ByValueFault::ByValuePair(at) => Some(at),
        ByValueFault::ByValueDeep | ByValueFault::NoMemory => None,
    }
}
