//! A row.

use pcf_values::Operator;

/// Where a pointer comes from.
#[derive(Clone, Copy)]
pub enum Origin {
    /// A place of the signatures.
    Sig(u32),
    /// A place of the boxes.
    Boxed(u32),
    /// A box of the innermost fork.
    Fork(u32),
    /// A word of the cell that is looked at.
    Word(u32),
    /// The top signature's cell, with this tag.
    SigPart(u64),
    /// The top box's cell, with this tag.
    BoxPart(u64),
    /// The new cell, with this tag.
    New(u64),
    /// A shape without names, with this tag.
    Bare(u64),
}

/// An operand of a number.
#[derive(Clone, Copy)]
pub enum Operand {
    /// The token's value.
    Value,
    /// The innermost fork's left answer.
    Kept,
    /// A number.
    Literal(u64),
    /// What a port was at reset.
    Port(u32),
}

/// The value after a row.
#[derive(Clone, Copy)]
pub enum Worth {
    /// As it was.
    Stays,
    /// An operand.
    Tells(Operand),
    /// What two come to.
    ComesTo(Operator, Operand, Operand),
}

/// What is seen at a row's key.
#[derive(Clone, Copy)]
pub enum Sees {
    /// Nothing.
    Nothing,
    /// A shape of this tag.
    Tag(u64),
    /// Whether the value is 0.
    Zero(bool),
}

/// What is looked at at a key.
#[derive(Clone, Copy)]
pub enum Site {
    /// Nothing.
    Nowhere,
    /// The top signature.
    OnSigs,
    /// The top box.
    OnBoxes,
    /// The value.
    OnValue,
}

/// What a row does with forks.
#[derive(Clone, Copy)]
pub enum Deed<'a> {
    /// Nothing.
    Leaves,
    /// One is opened with these boxes, with the new cell or not, and may have its left answer.
    Opens(&'a [Origin], bool, Option<Operand>),
    /// The innermost one gets its left answer.
    Keeps(Operand),
    /// It is closed.
    Closes,
}

/// A row.
#[derive(Clone, Copy)]
pub struct Row<'a> {
    /// The number of the key at which it is found.
    pub key: u64,
    /// It waits there for what is seen.
    pub waits: bool,
    /// What is seen there.
    pub sees: Sees,
    /// The number of the key at which it ends.
    pub to: u64,
    /// What is looked at there.
    pub site: Site,
    /// The moves that it makes.
    pub moves: u64,
    /// It ends with the run's answer.
    pub ends: bool,
    /// It makes a cell.
    pub makes: bool,
    /// The words of that cell.
    pub words: &'a [Origin],
    /// The signatures after it.
    pub sigs: &'a [Origin],
    /// The boxes after it.
    pub boxes: &'a [Origin],
    /// What it does with forks.
    pub fork: Deed<'a>,
    /// The value after it.
    pub worth: Worth,
}
