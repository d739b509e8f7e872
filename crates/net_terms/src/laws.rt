//! What holds of the term that is read from a net.

ghost use Rattle.net_terms.specs.Constants.{LimitIs};
ghost use Rattle.net_terms.specs.Laws.{ExampleTerm, OneTerm, ReadBack};

/// From the net of a closed term of type `nat` the walk reads that term.
pub fn law_net_read_back()
    ensures { ReadBack }
{}

/// No two closed terms of type `nat` have one net.
pub fn law_one_term()
    ensures { OneTerm }
{}

/// The term of `(fun x:nat. x + x) 3` is read from its net.
pub fn law_example_term()
    ensures { ExampleTerm }
{}

/// The limit is the number that definitions and contracts call by its name.
pub fn law_limit()
    ensures { LimitIs }
{}
