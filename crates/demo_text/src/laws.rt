//! Laws of the generated programs. Each is the contract of a function that does nothing.

ghost use Rattle.demo_text.specs.Laws.{DemoIsTyped, DemoSize};

/// The text of each number up to the limit stands for a tree, which has the type of numbers.
pub fn law_demo_is_typed()
    ensures { DemoIsTyped }
{}

/// The program of a number `n` has `4 * 2^n + 5` nodes, its types not counted.
pub fn law_demo_size()
    ensures { DemoSize }
{}
