//! What holds of every tree, and of one module.

ghost use Rattle.verilog_tree.specs.Laws.{Spared, SettlesOnce, SettledStays, TreeDeclares, TreeSettles};
ghost use Rattle.verilog_tree.specs.Example.{ExampleCounts, ExampleWidths, ExampleIsModule, ExampleRefused, ExampleText};

/// What a statement doesn't assign to holds what it held.
pub fn law_spared()
    ensures { Spared }
{}

/// Where all has settled, each wire is its expression, and to settle again changes nothing.
pub fn law_settled()
    ensures rests { SettlesOnce }
    ensures stays { SettledStays }
{}

/// What is declared of a name is what its item declares.
pub fn law_tree_declares()
    ensures { TreeDeclares }
{}

/// Where all has settled, each wire is its expression, each block was run, and all else is what it was.
pub fn law_tree_settles()
    ensures { TreeSettles }
{}

/// A module that counts, edge by edge; that it is a module and others aren't; and the text of a block.
pub fn law_example_module()
    ensures counts { ExampleCounts }
    ensures widths { ExampleWidths }
    ensures is_module { ExampleIsModule }
    ensures refused { ExampleRefused }
    ensures text { ExampleText }
{}
