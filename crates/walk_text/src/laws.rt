//! What holds of traces.

ghost use Rattle.walk_text.specs.Laws.{LineIsState, StepHasLine, LineForEach, WindowIsPart, AnswerEnds};
ghost use Rattle.walk_text.specs.Rows.{ExampleTraces};

/// Line K is the line of entry K in the state to which the first K entries lead.
pub fn law_line_by_line()
    ensures state { LineIsState }
    ensures there { StepHasLine }
    ensures each { LineForEach }
{}

/// A trace with a window is a part of the whole one.
pub fn law_window()
    ensures { WindowIsPart }
{}

/// The last line of a run with an answer is the move at the root, with that answer.
pub fn law_walk_ends()
    ensures { AnswerEnds }
{}

/// The traces of `succ 4`, of `(fun x:nat. x + x) 3` and of `1 + 2`, to the letter.
pub fn law_example_traces()
    ensures { ExampleTraces }
{}
