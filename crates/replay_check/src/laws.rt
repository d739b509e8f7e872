//! What holds of replays.

ghost use Rattle.replay_check.specs.Laws.{EachList, OneReplay, ReplayIsRun, RunIsReplayed};

/// A list comes to one thing at most.
pub fn law_one_replay()
    ensures { OneReplay }
{}

/// On a net that runs each list comes to something.
pub fn law_each_list()
    ensures { EachList }
{}

/// The replay of a list is its run.
pub fn law_replay_is_run()
    ensures run { RunIsReplayed }
    ensures replay { ReplayIsRun }
{}
