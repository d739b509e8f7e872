//! Which faults there are, for callers that have numbers.

ghost use Rattle.std.specs.Prelude.{◌≡◌};
ghost use Rattle.goi_c.specs.Faults.{number_of};

/// Which fault it is. A fault of a net that isn't sound is named by its own kind.
#[derive(Clone, Copy)]
pub enum Kind {
    /// From here on the bytes aren't UTF-8.
    NotText,
    /// No token begins here.
    BadToken,
    /// A number is above 2^64 - 1.
    NumberTooWide,
    /// No program goes on with this token.
    Unexpected,
    /// This is nested too deeply.
    TooDeep,
    /// With this the program is too large.
    TooLarge,
    /// A text is longer than its limit, or a schedule has too many moves.
    TooLong,
    /// A name isn't bound.
    Unbound,
    /// What is applied isn't a function.
    FunctionWanted,
    /// An argument has another type.
    ArgumentMismatch,
    /// A number is wanted.
    NatWanted,
    /// The body of a fixed point has another type.
    FixMismatch,
    /// A pair is wanted.
    PairWanted,
    /// The program is of another type than the one that is wanted.
    NotGround,
    /// A fixed point has no translation by value.
    ByValueFix,
    /// There are no pairs by value.
    ByValuePair,
    /// The program is too high to be translated by value.
    ByValueDeep,
    /// The first line is another one.
    BadHeader,
    /// This line is another one.
    BadLine,
    /// There is no last line.
    NoEnd,
    /// The net is that of no program.
    NotOfTerm,
    /// A wire of the net doesn't have two ends.
    LooseWire,
    /// The wires of a node have other types.
    TypeClash,
    /// The wires of a node are at other depths.
    DepthClash,
    /// The net has so many roots.
    RootCount,
    /// A ticket is above 2^32 - 1.
    TicketTooWide,
    /// A ticket isn't live.
    NotLive,
    /// The answer has come already.
    AfterAnswer,
    /// A list has too many programs.
    TooMany,
    /// Memory ran out; this is no fault of a text.
    NoMemory,
}

/// The number of a kind.
pub(crate) fn number(kind: Kind) -> u32
    ensures { result ≡ number_of kind }
{
    match kind {
        Kind::NotText => 1,
        Kind::BadToken => 2,
        Kind::NumberTooWide => 3,
        Kind::Unexpected => 4,
        Kind::TooDeep => 5,
        Kind::TooLarge => 6,
        Kind::TooLong => 7,
        Kind::Unbound => 8,
        Kind::FunctionWanted => 9,
        Kind::ArgumentMismatch => 10,
        Kind::NatWanted => 11,
        Kind::FixMismatch => 12,
        Kind::PairWanted => 13,
        Kind::NotGround => 14,
        Kind::ByValueFix => 15,
        Kind::ByValuePair => 16,
        Kind::ByValueDeep => 17,
        Kind::BadHeader => 18,
        Kind::BadLine => 19,
        Kind::NoEnd => 20,
        Kind::NotOfTerm => 21,
        Kind::LooseWire => 22,
        Kind::TypeClash => 23,
        Kind::DepthClash => 24,
        Kind::RootCount => 25,
        Kind::TicketTooWide => 26,
        Kind::NotLive => 27,
        Kind::AfterAnswer => 28,
        Kind::TooMany => 29,
        Kind::NoMemory => 30,
    }
}
