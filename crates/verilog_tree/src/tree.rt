//! A tree of Verilog that a program holds: the forms of `specs/Tree.antt`, with their parts borrowed.
//!
//! A name is a list of bytes. A tree that is the same for all programs is a constant, and is handed out by value. `specs/Views.antt` says
//! which tree each of these stands for.

/// A constant expression, for widths and places of bits.
#[derive(Clone, Copy)]
pub enum Extent<'a> {
    /// 8
    Count(u64),
    /// N
    Named(&'a [u8]),
    /// A + B
    More(&'a Extent<'a>, &'a Extent<'a>),
    /// A - B, where B isn't greater
    Less(&'a Extent<'a>, &'a Extent<'a>),
}

/// Operators whose operands are as wide as what is around them.
#[derive(Clone, Copy)]
pub enum Operation {
    /// +
    Plus,
    /// -
    Minus,
    /// *
    Times,
}

/// Shifts.
#[derive(Clone, Copy)]
pub enum Direction {
    /// <<
    Left,
    /// >>
    Right,
}

/// Comparisons.
#[derive(Clone, Copy)]
pub enum Comparison {
    /// ==
    Same,
    /// <
    Below,
}

/// Operators of truth values.
#[derive(Clone, Copy)]
pub enum Connective {
    /// &&
    Both,
    /// ||
    OneOf,
}

/// An expression.
#[derive(Clone, Copy)]
pub enum Expression<'a> {
    /// 7
    Number(u64),
    /// 3'd5
    Sized(u64, u64),
    /// A parameter.
    Constant(&'a [u8]),
    /// A vector, whole.
    Name(&'a [u8]),
    /// x[e]
    Bit(&'a [u8], &'a Expression<'a>),
    /// x[H:L]
    Part(&'a [u8], Extent<'a>, Extent<'a>),
    /// m[e], a word of a memory.
    Word(&'a [u8], &'a Expression<'a>),
    /// {a, b}
    Cat(&'a Expression<'a>, &'a Expression<'a>),
    /// ~a
    Inverse(&'a Expression<'a>),
    /// a + b and so on
    Two(Operation, &'a Expression<'a>, &'a Expression<'a>),
    /// a << b, a >> b
    Shift(Direction, &'a Expression<'a>, &'a Expression<'a>),
    /// a == b and so on
    Test(Comparison, &'a Expression<'a>, &'a Expression<'a>),
    /// a && b, a || b
    Logic(Connective, &'a Expression<'a>, &'a Expression<'a>),
    /// !a
    Not(&'a Expression<'a>),
    /// |a
    Any(&'a Expression<'a>),
    /// &a
    Every(&'a Expression<'a>),
    /// a ? b : c
    Pick(&'a Expression<'a>, &'a Expression<'a>, &'a Expression<'a>),
}

/// What is assigned to.
#[derive(Clone, Copy)]
pub enum Place<'a> {
    /// x
    Whole(&'a [u8]),
    /// m[e], a word of a memory.
    Word(&'a [u8], Expression<'a>),
}

/// A part of what is said of an arm.
#[derive(Clone, Copy)]
pub enum Remark<'a> {
    /// Words.
    Word(&'a [u8]),
    /// A number.
    Figure(u64),
}

/// A statement.
#[derive(Clone, Copy)]
#[cycle(statement)]
pub enum Statement<'a> {
    /// Nothing at all.
    Skip,
    /// x = e; or x <= e;
    Put(Place<'a>, Expression<'a>),
    /// One after the other.
    Seq(&'a Statement<'a>, &'a Statement<'a>),
    /// if (e) s else t
    Branch(Expression<'a>, &'a Statement<'a>, &'a Statement<'a>),
    /// case (e) .. endcase
    Case(Expression<'a>, &'a Cases<'a>),
}

/// The arms of a case, in their order.
#[derive(Clone, Copy)]
#[cycle(statement)]
pub enum Cases<'a> {
    /// default: s
    Otherwise(&'a Statement<'a>),
    /// a, b: s, with what is said of it.
    Arm(&'a [Expression<'a>], &'a Statement<'a>, &'a [Remark<'a>], &'a Cases<'a>),
}

/// A declared width.
#[derive(Clone, Copy)]
pub enum Range<'a> {
    /// One bit.
    One,
    /// [H:0]
    UpTo(Extent<'a>),
    /// [K-1:0]
    Wide(Extent<'a>),
}

/// What a module consists of.
#[derive(Clone, Copy)]
pub enum Item<'a> {
    /// A comment of one line.
    Note(&'a [u8]),
    /// An empty line.
    Gap,
    /// localparam x = n;
    Size(&'a [u8], u64),
    /// localparam [H:0] x = n;
    Constant(Range<'a>, &'a [u8], u128),
    /// input wire x
    Input(Range<'a>, &'a [u8]),
    /// output reg x
    Output(Range<'a>, &'a [u8]),
    /// reg x;
    Reg(Range<'a>, &'a [u8]),
    /// reg w m [0:K-1];
    Memory(Range<'a>, &'a [u8], Extent<'a>),
    /// wire x = e;
    Wire(Range<'a>, &'a [u8], Expression<'a>),
    /// always @* s
    Settles(Statement<'a>),
    /// always @(posedge clk) s
    Clocked(Statement<'a>),
}

/// How far in a line begins.
#[derive(Clone, Copy)]
pub enum Margin<'a> {
    /// At the edge.
    Edge,
    /// One level further in.
    Within(&'a Margin<'a>),
}
