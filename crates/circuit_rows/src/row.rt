//! Channels and rows.

use pcf_values::{Operator, Side};

/// A wire with a direction.
#[derive(Clone, Copy, PartialEq, Eq)]
pub struct Channel {
    /// The number of the wire.
    pub wire: u32,
    /// Whether it goes up that wire; else it goes down.
    pub up: bool,
}

/// What a circuit does with a token that comes by a channel, with the channels that it sends to.
#[derive(Clone, Copy)]
pub enum Row {
    /// The token goes on as it is.
    Go {
        /// Where to.
        to: Channel,
    },
    /// A question is answered by a number.
    Const {
        /// The number.
        value: u64,
        /// Where the answer goes.
        to: Channel,
    },
    /// The successor of an answer.
    Succ {
        /// Where it goes.
        to: Channel,
    },
    /// The predecessor of an answer, 0 of 0.
    Pred {
        /// Where it goes.
        to: Channel,
    },
    /// An answer chooses the question that is put next.
    Test {
        /// Where to at 0.
        zero: Channel,
        /// Where to at any other value.
        other: Channel,
    },
    /// A question becomes two, one for each operand.
    Fork {
        /// Where the left one goes.
        left: Channel,
        /// Where the right one goes.
        right: Channel,
    },
    /// An answer comes to its operator.
    Join {
        /// The operator.
        operator: Operator,
        /// Which operand it is.
        side: Side,
        /// Down which wire the second answer sends what both come to.
        wire: u32,
    },
    /// An answer is that of the whole program.
    Answer,
    /// The signature `*` goes on the work stack.
    Star {
        /// Where to.
        to: Channel,
    },
    /// The signature `*` goes off the work stack.
    Unstar {
        /// Where to.
        to: Channel,
    },
    /// The signature of the work stack's top is marked as the left one.
    Left {
        /// Where to.
        to: Channel,
    },
    /// It is marked as the right one.
    Right {
        /// Where to.
        to: Channel,
    },
    /// The mark is taken off again.
    Con {
        /// Where to with the left mark.
        left: Channel,
        /// Where to with the right mark.
        right: Channel,
    },
    /// The symbol `R` goes on the work stack.
    PushR {
        /// Where to.
        to: Channel,
    },
    /// The symbol `L` goes on the work stack.
    PushL {
        /// Where to.
        to: Channel,
    },
    /// The symbol of the work stack's top is taken off, and chooses.
    Select {
        /// Where to at `R`.
        at_r: Channel,
        /// Where to at `L`.
        at_l: Channel,
    },
    /// The symbol of the work stack's top is taken off.
    Pop {
        /// Where to.
        to: Channel,
    },
    /// Into a box: a signature goes from the work stack to the box stack.
    BoxIn {
        /// Where to.
        to: Channel,
    },
    /// Out of a box: it goes back.
    BoxOut {
        /// Where to.
        to: Channel,
    },
    /// Out of a box by a door: two signatures become one.
    DoorOut {
        /// Where to.
        to: Channel,
    },
    /// Back through the door: one becomes two.
    DoorIn {
        /// Where to.
        to: Channel,
    },
    /// Into the body of a `fix` from outside.
    FixIn {
        /// Where to.
        to: Channel,
    },
    /// Out of the body of a `fix`.
    FixOut {
        /// Where to from the call from outside.
        outside: Channel,
        /// Where to from a call from inside.
        inside: Channel,
    },
    /// Into the body of a `fix` from inside, by its variable.
    FixVar {
        /// Where to.
        to: Channel,
    },
    /// No token of a run comes here.
    Dead,
}

/// A row with the number of its node.
#[derive(Clone, Copy)]
pub struct Found {
    /// The number of the node.
    pub node: u32,
    /// The row.
    pub row: Row,
}
