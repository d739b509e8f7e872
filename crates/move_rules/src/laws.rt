//! What holds of the table of moves and of walks.

ghost use Rattle.move_rules.specs.Laws.{Retrace, FacedMove, OneWalk, TrailWalks};

/// What a plain rule does can be retraced: on a sound net, where a plain rule leads from one place to another, the same rules lead from
/// the second, turned round, to the first, turned round. It says nothing of the solo moves at a constant, `succ`, `pred` or a test.
pub fn law_retrace()
    ensures { Retrace }
{}

/// On every net, the move of a token is its move at the one node that it faces.
pub fn law_faced_move()
    ensures { FacedMove }
{}

/// On every net, what `walk` may answer for a token is one and the same.
pub fn law_one_walk()
    ensures { OneWalk }
{}

/// On a sound net, a trail of the net's own nodes is a walk of the net's moves.
pub fn law_trail_walks()
    ensures { TrailWalks }
{}
