//! Why a text has no run.

use crate::fault::ProgramFault;
use cbv_terms::ByValueFault;
use pcf_reader::ReadFault;
use pcf_types::TypeFault;
use std::alloc::AllocError;

/// Why there is no run of a text: memory ran out, or the text has a fault.
#[derive(Clone, Copy)]
pub enum NoRun {
    Memory,
    Fault(ProgramFault),
}

impl From<AllocError> for NoRun {
    ghost use Rattle.std.specs.Prelude.{◌≡◌};
    ghost use Rattle.program_runs.specs.declared.no_run.NoRun.TheVariants.{Memory};

    ghost from_gives = { λ _ e. e ≡ Memory };

    fn from(_: AllocError) -> NoRun {
        NoRun::Memory
    }
}

impl From<ReadFault> for NoRun {
    ghost use Rattle.std.specs.Prelude.{◌≡◌};
    ghost use Rattle.program_runs.specs.NoRuns.{no_run_of_read};

    ghost from_gives = { λ f e. e ≡ no_run_of_read f };

    fn from(fault: ReadFault) -> NoRun {
        match fault {
            ReadFault::NoMemory => NoRun::Memory,
            _ => NoRun::Fault(ProgramFault::Read(fault)),
        }
    }
}

impl From<TypeFault> for NoRun {
    ghost use Rattle.std.specs.Prelude.{◌≡◌};
    ghost use Rattle.program_runs.specs.NoRuns.{no_run_of_type};

    ghost from_gives = { λ f e. e ≡ no_run_of_type f };

    fn from(fault: TypeFault) -> NoRun {
        match fault {
            TypeFault::NoMemory => NoRun::Memory,
            _ => NoRun::Fault(ProgramFault::Typing(fault)),
        }
    }
}

impl From<ByValueFault> for NoRun {
    ghost use Rattle.std.specs.Prelude.{◌≡◌};
    ghost use Rattle.program_runs.specs.NoRuns.{no_run_of_by_value};

    ghost from_gives = { λ f e. e ≡ no_run_of_by_value f };

    fn from(fault: ByValueFault) -> NoRun {
        match fault {
            ByValueFault::NoMemory => NoRun::Memory,
            _ => NoRun::Fault(ProgramFault::ByValue(fault)),
        }
    }
}
