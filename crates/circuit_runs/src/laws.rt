//! What the run of a program's module tells, and that the run of a module and its dump go together.

ghost use Rattle.circuit_runs.specs.Laws.{ProgramRuns};
ghost use Rattle.circuit_runs.specs.Waves.{SameEnd, SameStates};

/// What a run of the module of a program comes to tells what the program means, at its net's length, after at most 133 edges a move; or
/// that there is no row or no room for one just then; or that its net is longer, or has no length.
pub fn law_program_runs()
    ensures { ProgramRuns }
{}

/// The dump of a module shows the states of its run.
pub fn law_same_states()
    ensures { SameStates }
{}

/// It has as many edges as the run.
pub fn law_same_end()
    ensures { SameEnd }
{}
