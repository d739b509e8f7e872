//! What holds of states and of every interleaving.

ghost use Rattle.interleave_laws.specs.Example.{ExampleOne, ExampleAnswer, ExampleOther};
ghost use Rattle.interleave_laws.specs.Progress.{OnePlace, AskedOnce, OpenedOnce, HasStep, AnsweredEnds, IdleAnswered, OthersStay};
ghost use Rattle.interleave_laws.specs.Diamond.{Diamond};
ghost use Rattle.interleave_laws.specs.AnyOrder.{AlikeSteps, AlikeRuns, AnyOrder};
ghost use Rattle.interleave_laws.specs.OneWorkerLaws.{OneIsLeast, OneLeads, OneFinished, OnePrefix, OneNext, OneContinues, OneEnds};
ghost use Rattle.interleave_laws.specs.OneWorkerLaws.{OneFinishes, LeastStays, OneWalks, SearchFinds, SearchMisses};
ghost use Rattle.interleave_laws.specs.TrailLaws.{WalkSteps, WalkStepsMap, TrailStepsMap};
ghost use Rattle.interleave_laws.specs.MapLaws.{SeenStarts, SeenSteps, SeenRuns, SeenTells, MapLed, MapLeads, MapTickets, MapLow};
ghost use Rattle.interleave_laws.specs.MapLaws.{StartReached, StepReached, MoreReached};
ghost use Rattle.interleave_laws.specs.MapLaws.{MapOnePlace, MapHasStep, MapAnsweredEnds, MapIdleAnswered, MapOthersStay, MapDiamond};

/// Uniqueness and progress on every sound net: no two live tokens stand at one place, no place is asked and no entry opened twice, there
/// is an answer exactly where no token is live, and then no entry is left, and a step leaves the tokens of all other live tickets. On a
/// net that runs each live ticket has its step.
pub fn law_progress()
    ensures one_place { OnePlace }
    ensures asked_once { AskedOnce }
    ensures opened_once { OpenedOnce }
    ensures has_step { HasStep }
    ensures answered { AnsweredEnds }
    ensures idle { IdleAnswered }
    ensures others { OthersStay }
{}

/// Two live tickets may move in either order, and the states without their tickets are one.
pub fn law_diamond()
    ensures { Diamond }
{}

/// States that are alike but for their tickets go on alike, by a step and by a whole run, in which the same tokens move. So two moves of
/// different tickets can be exchanged at any place in a run, and the rest of the run is there again, move by move, under other tickets.
pub fn law_any_order()
    ensures steps { AlikeSteps }
    ensures runs { AlikeRuns }
    ensures order { AnyOrder }
{}

/// The one worker's log names the least live ticket at each place and is finished within its budget; a ticket that is the least may be
/// walked on; and every log can be finished so.
pub fn law_one_worker()
    ensures least { OneIsLeast }
    ensures leads { OneLeads }
    ensures finished { OneFinished }
    ensures prefix { OnePrefix }
    ensures next { OneNext }
    ensures continues { OneContinues }
    ensures ends { OneEnds }
    ensures finishes { OneFinishes }
    ensures stays { LeastStays }
    ensures walks { OneWalks }
    ensures finds { SearchFinds }
    ensures misses { SearchMisses }
{}

/// A trail of solo moves is as many steps of its ticket, and leaves all else.
pub fn law_trail_steps()
    ensures steps { WalkSteps }
    ensures maps { WalkStepsMap }
    ensures trails { TrailStepsMap }
{}

/// States over finite maps start, step and run as what they answer, states that answer alike are one, and the laws hold of them.
pub fn law_maps()
    ensures starts { SeenStarts }
    ensures steps { SeenSteps }
    ensures runs { SeenRuns }
    ensures tells { SeenTells }
    ensures led { MapLed }
    ensures leads { MapLeads }
    ensures start_reached { StartReached }
    ensures step_reached { StepReached }
    ensures more_reached { MoreReached }
    ensures tickets { MapTickets }
    ensures low { MapLow }
    ensures one_place { MapOnePlace }
    ensures has_step { MapHasStep }
    ensures answered { MapAnsweredEnds }
    ensures idle { MapIdleAnswered }
    ensures others { MapOthersStay }
    ensures diamond { MapDiamond }
{}

/// The net of `(fun x:nat. x + x) 3` answers 6 after 30 moves, whichever of its two tickets goes first.
pub fn law_example_runs()
    ensures one { ExampleOne }
    ensures answer { ExampleAnswer }
    ensures other { ExampleOther }
{}
