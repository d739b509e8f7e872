//! The law that `run` and `steps` tell one value.

ghost use Rattle.goi_tasks.specs.Agreement.{RunAndStepsAgree};

use cbn_meaning::law_one_value;
use program_runs::law_one_program;

/// Where `run` of a text and `steps` of it both come to a value, within whatever limits, it is one value, and both begin with its line.
pub fn law_run_and_steps()
    ensures { RunAndStepsAgree }
{
    law_one_program();
    law_one_value();
}
