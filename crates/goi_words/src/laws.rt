//! What plain words ask for, and which words are refused.

ghost use Rattle.goi_words.specs.Laws.{HelpIsRefused, NoWordsAreRefused, PlainWordsAreTaken, TakenWordsHaveAJob};

/// Plain words ask for what the table says: a command, its operands in order, and then its options in any order, each at most once. They
/// are never refused, but at `circuit` for an option that has no use there.
pub fn law_plain_words()
    ensures { PlainWordsAreTaken }
{}

/// No words at all are read as the program's name alone, and are refused.
pub fn law_no_words()
    ensures { NoWordsAreRefused }
{}

/// A request for help in a command's place is refused like other words.
pub fn law_help()
    ensures { HelpIsRefused }
{}

/// Words that `clap`'s definition takes ask for a job, and its numbers are in range; or they enter `circuit` with a name that is no
/// module's or with an option that has no use there, and are refused.
pub fn law_taken_words()
    ensures { TakenWordsHaveAJob }
{}
