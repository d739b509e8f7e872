//! What holds of stacks, their words and their order, as laws.

ghost use Rattle.token_stacks.specs.Laws.{WordsTell, BoxesInOrder};

/// No two stacks have the same words.
pub fn law_words_tell()
    ensures { WordsTell }
{}

/// Box stacks are in a total order, and are equal in it exactly when they are the same list of signatures.
pub fn law_boxes_in_order()
    ensures { BoxesInOrder }
{}
