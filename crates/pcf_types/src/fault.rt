//! Faults of scope and type.

ghost use Rattle.std.specs.Prelude.{◌≡◌};
ghost use Rattle.pcf_types.specs.declared.fault.TypeFault.TheVariants.{NoMemory};

use std::alloc::{AllocError, AllocFailed};

/// The first fault of scope or type, with its place: an offset in bytes from the beginning of the text.
#[derive(Clone, Copy, Debug, PartialEq, Eq)]
pub enum TypeFault {
    /// Memory was wanting. Nothing is said of the program.
    NoMemory,
    /// A variable that no binder binds, at its place.
    Unbound(u32),
    /// What is applied isn't of a function's type, at its place.
    FunctionWanted(u32),
    /// An argument isn't of the type that the function takes, at the argument's place.
    ArgumentMismatch(u32),
    /// A part of `succ`, `pred`, `+`, `-`, `*` or `ifz` isn't of type `nat`, at the part's place.
    NatWanted(u32),
    /// The body of a `fix` isn't of the type that its binder has, at the body's place.
    FixMismatch(u32),
    /// What `fst` or `snd` is taken of isn't of a pair's type, at its place.
    PairWanted(u32),
}

impl From<AllocError> for TypeFault {
    ghost from_gives = { λ _ e. e ≡ NoMemory };

    fn from(_error: AllocError) -> TypeFault {
        TypeFault::NoMemory
    }
}

impl<T: Drop> From<AllocFailed<T>> for TypeFault {
    ghost from_gives = { λ _ e. e ≡ NoMemory };

    fn from(_error: AllocFailed<T>) -> TypeFault {
        TypeFault::NoMemory
    }
}
