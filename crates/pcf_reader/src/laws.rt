//! Laws over texts and trees. Each is the contract of a function that does nothing.

ghost use Rattle.pcf_reader.specs.Laws.{OneTree, OneFault, TextOrFault, NotBoth, Bounded, ReadBack};
ghost use Rattle.pcf_reader.specs.Examples.{ExampleWords, ExampleOperators, ExampleApplications, ExampleTypes, ExampleLines};

/// A text stands for one tree.
pub fn law_one_tree()
    ensures { OneTree }
{}

/// A text has one first fault at most.
pub fn law_text_one_fault()
    ensures { OneFault }
{}

/// Each list of bytes is the text of a tree or has a first fault, and never both.
pub fn law_text_or_fault()
    ensures either { TextOrFault }
    ensures not_both { NotBoth }
{}

/// A tree that was read has at most `limits::PROGRAM_NODES` nodes, and its height is at most 2,504.
pub fn law_bounded()
    ensures { Bounded }
{}

/// What is printed of a tree that was read is read back to the same tree, places aside, unless it is too long.
pub fn law_text_read_back()
    ensures { ReadBack }
{}

/// Thirty texts and their trees: each keyword and each sign as a program has its bytes, and how they are grouped.
pub fn law_example_texts()
    ensures words { ExampleWords }
    ensures operators { ExampleOperators }
    ensures applications { ExampleApplications }
    ensures types { ExampleTypes }
    ensures lines { ExampleLines }
{}
