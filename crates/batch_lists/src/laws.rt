//! What holds of lists of jobs and of the limits.

ghost use Rattle.batch_lists.specs.Laws.{OneList, BatchLimitsAre};

/// The constants are the numbers of the definitions.
pub fn law_batch_limits()
    ensures { BatchLimitsAre }
{}

/// Bytes are read in one way at most.
pub fn law_one_list()
    ensures { OneList }
{}
