//! Faults of programs.

use cbv_terms::ByValueFault;
use pcf_reader::ReadFault;
use pcf_types::TypeFault;

/// Why a text is no program that can be run. Places are indices of bytes in the text.
#[derive(Clone, Copy)]
pub enum ProgramFault {
    /// The text isn't in the grammar, or passes a limit.
    Read(ReadFault),
    /// Its scope or its types are at fault.
    Typing(TypeFault),
    /// Its type isn't `nat`.
    NotGround,
    /// It has no translation by value.
    ByValue(ByValueFault),
}
