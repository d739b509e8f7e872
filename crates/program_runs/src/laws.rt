//! What is always true of programs and of their runs.

ghost use Rattle.program_runs.specs.Laws.{OneProgram, MovesTell, RunsTell};
ghost use Rattle.program_runs.specs.Examples.{ExampleCallings};
ghost use Rattle.program_runs.specs.ExampleTexts.{ExampleTexts};

use adequacy_laws::law_finished;
use cbv_terms::law_faults;
use pcf_reader::{law_one_tree, law_text_one_fault, law_text_or_fault};

/// A text is one program, or has one first fault, and never both.
pub fn law_one_program()
    ensures { OneProgram }
{
    law_one_tree();
    law_text_one_fault();
    law_text_or_fault();
    law_faults();
}

/// Each run of the net of a program of type `nat` says what the program means: an answer is its value, after as many moves as the net is
/// long, and no answer says that the net's length is absent or above the budget. So do moves that were made one by one.
pub fn law_tells()
    ensures runs { RunsTell }
    ensures moves { MovesTell }
{
    law_finished();
}

/// Values and lengths of the nets of some programs and of their translations, as the prover computes them.
pub fn law_example_callings()
    ensures { ExampleCallings }
{}

/// What some texts mean, from their bytes to their values, as the prover computes it.
pub fn law_example_meanings()
    ensures { ExampleTexts }
{}
