//! Why there is no report.

use crate::fault::Fault;
use net_text::NetTextFault;
use pcf_reader::ReadFault;
use pcf_types::TypeFault;
use program_runs::NoRun;
use replay_check::ReplayFault;
use schedule_log::ScheduleFault;
use std::alloc::AllocError;

/// Why there is no report: memory was wanting, or the program or the schedule has a fault.
#[derive(Clone, Copy)]
pub enum Stop {
    Memory,
    Fault(Fault),
}

impl From<AllocError> for Stop {
    ghost use Rattle.std.specs.Prelude.{◌≡◌};
    ghost use Rattle.goi_tasks.specs.declared.stop.Stop.TheVariants.{Memory};

    ghost from_gives = { λ _ e. e ≡ Memory };

    fn from(_: AllocError) -> Stop {
        Stop::Memory
    }
}

impl From<NoRun> for Stop {
    ghost use Rattle.std.specs.Prelude.{◌≡◌};
    ghost use Rattle.goi_tasks.specs.Stops.{stop_of_no_run};

    ghost from_gives = { λ n e. e ≡ stop_of_no_run n };

    fn from(none: NoRun) -> Stop {
        match none {
            NoRun::Memory => Stop::Memory,
            NoRun::Fault(fault) => Stop::Fault(Fault::Program(fault)),
        }
    }
}

impl From<ReadFault> for Stop {
    ghost use Rattle.std.specs.Prelude.{◌≡◌};
    ghost use Rattle.goi_tasks.specs.Stops.{stop_of_read};

    ghost from_gives = { λ f e. e ≡ stop_of_read f };

    fn from(fault: ReadFault) -> Stop {
        Stop::from(NoRun::from(fault))
    }
}

impl From<TypeFault> for Stop {
    ghost use Rattle.std.specs.Prelude.{◌≡◌};
    ghost use Rattle.goi_tasks.specs.Stops.{stop_of_type};

    ghost from_gives = { λ f e. e ≡ stop_of_type f };

    fn from(fault: TypeFault) -> Stop {
        Stop::from(NoRun::from(fault))
    }
}

impl From<ScheduleFault> for Stop {
    ghost use Rattle.std.specs.Prelude.{◌≡◌};
    ghost use Rattle.goi_tasks.specs.Stops.{stop_of_schedule};

    ghost from_gives = { λ f e. e ≡ stop_of_schedule f };

    fn from(fault: ScheduleFault) -> Stop {
        match fault {
            ScheduleFault::NoMemory => Stop::Memory,
            _ => Stop::Fault(Fault::Schedule(fault)),
        }
    }
}

impl From<ReplayFault> for Stop {
    ghost use Rattle.std.specs.Prelude.{◌≡◌};
    ghost use Rattle.goi_tasks.specs.Stops.{stop_of_replay};

    ghost from_gives = { λ f e. e ≡ stop_of_replay f };

    fn from(fault: ReplayFault) -> Stop {
        match fault {
            ReplayFault::NoMemory => Stop::Memory,
            _ => Stop::Fault(Fault::Moves(fault)),
        }
    }
}

impl From<NetTextFault> for Stop {
    ghost use Rattle.std.specs.Prelude.{◌≡◌};
    ghost use Rattle.goi_tasks.specs.Stops.{stop_of_net_text};

    ghost from_gives = { λ f e. e ≡ stop_of_net_text f };

    fn from(fault: NetTextFault) -> Stop {
        match fault {
            NetTextFault::NoMemory => Stop::Memory,
            _ => Stop::Fault(Fault::NetText(fault)),
        }
    }
}
