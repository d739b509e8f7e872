//! What holds of branches.

ghost use Rattle.branch_laws.specs.Laws.{StartIsBranch, BranchIsRun, BranchLeads, BranchApart, BranchLow, BranchStops, GraftLeaves};
ghost use Rattle.branch_laws.specs.Laws.{GraftGives};
ghost use Rattle.branch_laws.specs.Laws.{MapBranchIsRun, MapBranchGrafts, MapBranchLeads, MapBranchApart, MapBranchLow, MapBranchStops};
ghost use Rattle.branch_laws.specs.Laws.{MapBranchTickets};
ghost use Rattle.branch_laws.specs.Laws.{MapBranchReached, MapGraftLeaves, MapBranchBegins, MapBranchSteps, MapBranchWalks, MapPlainGrafts};
ghost use Rattle.branch_laws.specs.Laws.{MapBranchFew};
ghost use Rattle.branch_laws.specs.Laws.{MapBranchFresh, MapBranchAble, PlainNames, NamesTell};
ghost use Rattle.branch_laws.specs.Example.{ExampleWhole, ExampleStops, ExampleStands, ExampleHalves};

/// A branch is a run. In every state that a log leads to, on every sound net, the run of one live token by itself is, under other
/// tickets, a run of the state, to the state with what came of the token in its place. Its entries are none of the state's, and its live
/// tickets are below its next. On a net that runs each has its step, but where an answer comes to a join whose entry isn't the branch's.
pub fn law_branch()
    ensures start { StartIsBranch }
    ensures runs { BranchIsRun }
    ensures leads { BranchLeads }
    ensures apart { BranchApart }
    ensures low { BranchLow }
    ensures stops { BranchStops }
    ensures leaves { GraftLeaves }
    ensures gives { GraftGives }
{}

/// The same of states over finite maps, as a running machine keeps them.
pub fn law_branch_maps()
    ensures runs { MapBranchIsRun }
    ensures grafts { MapBranchGrafts }
    ensures leads { MapBranchLeads }
    ensures apart { MapBranchApart }
    ensures low { MapBranchLow }
    ensures stops { MapBranchStops }
    ensures tickets { MapBranchTickets }
    ensures reached { MapBranchReached }
    ensures leaves { MapGraftLeaves }
    ensures begins { MapBranchBegins }
    ensures steps { MapBranchSteps }
    ensures walks { MapBranchWalks }
    ensures plain { MapPlainGrafts }
    ensures few { MapBranchFew }
    ensures fresh { MapBranchFresh }
    ensures able { MapBranchAble }
    ensures plain_names { PlainNames }
    ensures names { NamesTell }
{}

/// On the net of `(fun x:nat. x + x) 3` the whole run but its last move is a branch with a fork and both its joins; the second ticket's
/// branch stands before its join after eleven moves. And `(1 + 2) + (3 + 4)` answers 10 by one move, its two halves as branches, and the
/// three moves of their answers.
pub fn law_example_branch()
    ensures whole { ExampleWhole }
    ensures stands { ExampleStands }
    ensures stops { ExampleStops }
    ensures halves { ExampleHalves }
{}
