//! What the module of joined rows tells.

ghost use Rattle.joined_means.specs.Laws.{ProgramModule, ProgramTimes, ProgramFits, FunctionModule, FunctionTimes, FunctionFits};

/// The module of a program's table that the check takes, after a reset from whatever registers and memories: it is full, or it tells what
/// the program means; `done` and `full` are up at just those edges at which the rows with their waits say so, without registers; and where
/// the rows lack no pair and there are as many cells and forks as they use at once, it is never full.
pub fn law_joined_program()
    ensures tells { ProgramModule }
    ensures times { ProgramTimes }
    ensures fits { ProgramFits }
{}

/// So does the module of a function of numbers, after a reset with arguments at its ports, whatever is there later: it tells what the
/// function means at these. Its table was checked once, whatever the arguments are.
pub fn law_joined_function()
    ensures tells { FunctionModule }
    ensures times { FunctionTimes }
    ensures fits { FunctionFits }
{}
