//! What holds of applied terms and of their nets.

ghost use Rattle.open_net_laws.specs.Laws.{AppliedHas, AppliedSize, AppliedNet, OtherNumbers, SameShape, ExampleApplied};

/// A function of so many numbers, applied to so many numbers, is a number. The term has two nodes more for each of them, and is higher by
/// one. Its net is the term's part, and behind it three wires and three nodes for each, and the root.
pub fn law_applied()
    ensures has { AppliedHas }
    ensures size { AppliedSize }
    ensures net { AppliedNet }
{}

/// The net of a term that is applied to numbers is its net at any others, with the numbers of the arguments' nodes exchanged; and so it
/// has the same wires, and as many nodes.
pub fn law_numbers()
    ensures numbers { OtherNumbers }
    ensures shape { SameShape }
{}

/// The net of a function of two numbers at 5 and 3, as it is listed, and that of 7 and 9 made of it.
pub fn law_example_applied()
    ensures { ExampleApplied }
{}
