//! What holds of the texts of expressions, of statements and of modules.

ghost use Rattle.verilog_texts.specs.Laws.{OneExpression, OneBlock, OneMeaning};
ghost use Rattle.verilog_texts.specs.Examples.{ExampleSameTexts};

/// Where the names in them are declared, and no number has more digits than its text, two expressions that print alike are one.
pub fn law_expression()
    ensures { OneExpression }
{}

/// Two statements that print alike do the same in a block that settles, and in one of the clock.
pub fn law_block()
    ensures { OneBlock }
{}

/// Two well-formed modules that print alike have one name and the same edges.
pub fn law_module()
    ensures { OneMeaning }
{}

/// Trees that print alike and aren't one. Two modules of them have the same edges; a tree in which a number has more than 64 digits has
/// others than the one that prints alike, and is no module; nor is a tree in which a number's width has.
pub fn law_example_same_texts()
    ensures { ExampleSameTexts }
{}
