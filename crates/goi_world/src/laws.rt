//! Laws on the definitions by which files in memory are looked up.

ghost use Rattle.goi_world.specs.NamedFiles.{FirstCounts, LacksExactly};

/// Of two files in memory with one name the first counts.
pub fn law_first_counts()
    ensures { FirstCounts }
{}

/// Files in memory lack exactly the names that no file of their list has.
pub fn law_lacks_exactly()
    ensures { LacksExactly }
{}
