//! Why a program is refused by value.

ghost use Rattle.std.specs.Prelude.{◌≡◌};
ghost use Rattle.cbv_terms.specs.declared.fault.ByValueFault.TheVariants.{NoMemory};

use std::alloc::{AllocError, AllocFailed};

/// Why a program isn't translated. A place is an offset in bytes from the beginning of the text.
#[derive(Clone, Copy, Debug, PartialEq, Eq)]
pub enum ByValueFault {
    /// Memory was wanting. Nothing is said of the program.
    NoMemory,
    /// A `fix` at this place isn't of a function's type, or its body is no `fun`.
    ByValueFix(u32),
    /// A pair, `fst` or `snd` stands at this place, or a binder whose type has a product.
    ByValuePair(u32),
    /// The program is higher than `BY_VALUE_HEIGHT`.
    ByValueDeep,
}

impl From<AllocError> for ByValueFault {
    ghost from_gives = { λ _ e. e ≡ NoMemory };

    fn from(_error: AllocError) -> ByValueFault {
        ByValueFault::NoMemory
    }
}

impl<T: Drop> From<AllocFailed<T>> for ByValueFault {
    ghost from_gives = { λ _ e. e ≡ NoMemory };

    fn from(_error: AllocFailed<T>) -> ByValueFault {
        ByValueFault::NoMemory
    }
}
