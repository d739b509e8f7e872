//! What holds of rounds, units and spans.

ghost use Rattle.round_laws.specs.RoundLaws.{LiveRises, LiveIsWhole, RoundsRun, RoundsLead, RoundsGoOn, RoundsEnd, RoundsMove};
ghost use Rattle.round_laws.specs.RoundLaws.{RoundsAnswer, RoundsAsLong};
ghost use Rattle.round_laws.specs.OrderLaws.{UnitsRun, UnitOrder, RoundOrder};
ghost use Rattle.round_laws.specs.Programs.{MeansSpan, RoundsMean};
ghost use Rattle.round_laws.specs.Example.{ExampleRounds};
ghost use Rattle.round_laws.specs.ScheduleLaws.{RoundsSchedule, NoFaster, NearlyAsFast, BoundOfBrent, EnoughProcessors};
ghost use Rattle.round_laws.specs.ScheduleLaws.{ProcessorsCan, WorkTakesUnits, BoundOfGraham};
ghost use Rattle.round_laws.specs.SpanLaws.{OneSpan, RoundsTell, SpanIsThere, SpanAtMost, SpanAtLeast};

/// A round moves each live ticket once, the least first. Rounds are the run of their log; on a net that runs any number of them leads to a
/// state; each has a move as long as there is no answer, and changes nothing once there is one.
pub fn law_rounds()
    ensures rises { LiveRises }
    ensures whole { LiveIsWhole }
    ensures runs { RoundsRun }
    ensures lead { RoundsLead }
    ensures go_on { RoundsGoOn }
    ensures end { RoundsEnd }
    ensures moves { RoundsMove }
{}

/// On a net that runs, some number of rounds answers a value exactly when the one worker does, and after as many moves.
pub fn law_round_answers()
    ensures answer { RoundsAnswer }
    ensures as_long { RoundsAsLong }
{}

/// Live tickets may move in any order, each once: the states are alike but for their tickets. So a round has no order.
pub fn law_unit_order()
    ensures runs { UnitsRun }
    ensures order { UnitOrder }
    ensures rounds { RoundOrder }
{}

/// On a net that runs, the answer comes after exactly so many rounds as the net's span, which is counted along the net without tokens. It
/// is at most the length, and at least the length divided by the most tokens that are live at once.
pub fn law_span()
    ensures one { OneSpan }
    ensures tells { RoundsTell }
    ensures there { SpanIsThere }
    ensures at_most { SpanAtMost }
    ensures at_least { SpanAtLeast }
{}

/// No schedule in which each token moves at most once in a unit of time answers in fewer units than the span. A schedule that leaves none
/// of p processors idle while a token waits takes at most a p-th of the moves and 1 - 1 / p of the span. It makes the rounds where no more
/// than p tokens are live at once.
pub fn law_schedules()
    ensures rounds { RoundsSchedule }
    ensures no_faster { NoFaster }
    ensures nearly_as_fast { NearlyAsFast }
    ensures brent { BoundOfBrent }
    ensures enough { EnoughProcessors }
{}

/// p processors can leave none idle, in units of p tokens at most. Their units are at least a p-th of the moves, so leaving none idle takes
/// at most 2 - 1 / p times as many units as any schedule of p processors.
pub fn law_processors()
    ensures can { ProcessorsCan }
    ensures work { WorkTakesUnits }
    ensures graham { BoundOfGraham }
{}

/// A closed term of type `nat` means a value by name exactly when its net has that value and a span, and exactly when some number of
/// rounds answers it.
pub fn law_round_programs()
    ensures span { MeansSpan }
    ensures rounds { RoundsMean }
{
    net_build::law_built_sound();
}

/// The net of `(fun x:nat. x + x) 3` answers 6 after 18 rounds of 30 moves.
pub fn law_example_rounds()
    ensures { ExampleRounds }
{}
