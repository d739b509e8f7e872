//! Faults as marks: which fault, where, and of which ticket.

ghost use Rattle.std.specs.Prelude.{◌≡◌};
ghost use Rattle.goi_c.specs.Faults.{batch_mark, by_value_mark, mark_of, net_text_mark, placed, plain, program_mark, read_mark};
ghost use Rattle.goi_c.specs.Faults.{replay_mark, schedule_mark, type_mark, unsound_mark};

use crate::kinds::Kind;
use batch_lists::BatchFault;
use cbv_terms::ByValueFault;
use goi_tasks::Fault;
use net_check::NetFault;
use net_text::NetTextFault;
use pcf_reader::ReadFault;
use pcf_types::TypeFault;
use program_runs::ProgramFault;
use replay_check::ReplayFault;
use schedule_log::ScheduleFault;

/// What the line of a fault says, without its words.
#[derive(Clone, Copy)]
pub struct Mark {
    /// Which fault.
    pub kind: Kind,
    /// Where it is: a byte of a program, a line of a file, a wire or a node of a net, an entry of a schedule; or a number of roots.
    pub place: Option<u32>,
    /// The ticket that isn't live, and else 0.
    pub ticket: u32,
}

/// The mark of a fault.
pub(crate) fn mark_of(fault: Fault) -> Mark
    ensures { result ≡ mark_of fault }
{
    match fault {
        Fault::Program(fault) => program_mark(fault),
        Fault::NetText(fault) => net_text_mark(fault),
        Fault::Schedule(fault) => schedule_mark(fault),
        Fault::Moves(fault) => replay_mark(fault),
        Fault::Batch(fault) => batch_mark(fault),
    }
}

/// The mark of a program's fault.
fn program_mark(fault: ProgramFault) -> Mark
    ensures { result ≡ program_mark fault }
{
    match fault {
        ProgramFault::Read(fault) => read_mark(fault),
        ProgramFault::Typing(fault) => type_mark(fault),
        ProgramFault::NotGround => plain(Kind::NotGround),
        ProgramFault::ByValue(fault) => by_value_mark(fault),
    }
}

/// The mark of a fault of reading.
fn read_mark(fault: ReadFault) -> Mark
    ensures { result ≡ read_mark fault }
{
    match fault {
        ReadFault::NoMemory => plain(Kind::NoMemory),
        ReadFault::NotText(at) => placed(Kind::NotText, at),
        ReadFault::BadToken(at) => placed(Kind::BadToken, at),
        ReadFault::NumberTooWide(at) => placed(Kind::NumberTooWide, at),
        ReadFault::Unexpected(at) => placed(Kind::Unexpected, at),
        ReadFault::TooDeep(at) => placed(Kind::TooDeep, at),
        ReadFault::TooLarge(at) => placed(Kind::TooLarge, at),
        ReadFault::TooLong => plain(Kind::TooLong),
    }
}

/// The mark of a fault of scope or type.
fn type_mark(fault: TypeFault) -> Mark
    ensures { result ≡ type_mark fault }
{
    match fault {
        TypeFault::NoMemory => plain(Kind::NoMemory),
        TypeFault::Unbound(at) => placed(Kind::Unbound, at),
        TypeFault::FunctionWanted(at) => placed(Kind::FunctionWanted, at),
        TypeFault::ArgumentMismatch(at) => placed(Kind::ArgumentMismatch, at),
        TypeFault::NatWanted(at) => placed(Kind::NatWanted, at),
        TypeFault::FixMismatch(at) => placed(Kind::FixMismatch, at),
        TypeFault::PairWanted(at) => placed(Kind::PairWanted, at),
    }
}

/// The mark of a fault of a program that is called by value.
fn by_value_mark(fault: ByValueFault) -> Mark
    ensures { result ≡ by_value_mark fault }
{
    match fault {
        ByValueFault::NoMemory => plain(Kind::NoMemory),
        ByValueFault::ByValueFix(at) => placed(Kind::ByValueFix, at),
        ByValueFault::ByValuePair(at) => placed(Kind::ByValuePair, at),
        ByValueFault::ByValueDeep => plain(Kind::ByValueDeep),
    }
}

/// The mark of a listing's fault.
fn net_text_mark(fault: NetTextFault) -> Mark
    ensures { result ≡ net_text_mark fault }
{
    match fault {
        NetTextFault::NoMemory => plain(Kind::NoMemory),
        NetTextFault::BadLine(n) => placed(Kind::BadLine, n),
        NetTextFault::NotSound(fault) => unsound_mark(fault),
        NetTextFault::NotOfTerm => plain(Kind::NotOfTerm),
        NetTextFault::TooLong => plain(Kind::TooLong),
    }
}

/// The mark of a listed net that isn't sound.
fn unsound_mark(fault: NetFault) -> Mark
    ensures { result ≡ unsound_mark fault }
{
    match fault {
        NetFault::NoMemory => plain(Kind::NoMemory),
        NetFault::LooseWire(n) => placed(Kind::LooseWire, n),
        NetFault::TypeClash(n) => placed(Kind::TypeClash, n),
        NetFault::DepthClash(n) => placed(Kind::DepthClash, n),
        NetFault::RootCount(n) => placed(Kind::RootCount, n),
    }
}

/// The mark of a schedule's fault.
fn schedule_mark(fault: ScheduleFault) -> Mark
    ensures { result ≡ schedule_mark fault }
{
    match fault {
        ScheduleFault::NoMemory => plain(Kind::NoMemory),
        ScheduleFault::BadHeader => plain(Kind::BadHeader),
        ScheduleFault::BadLine(n) => placed(Kind::BadLine, n),
        ScheduleFault::TicketTooWide(n) => placed(Kind::TicketTooWide, n),
        ScheduleFault::NoEnd => plain(Kind::NoEnd),
        ScheduleFault::TooLong(n) => placed(Kind::TooLong, n),
    }
}

/// The mark of a schedule whose moves aren't a run of the program.
fn replay_mark(fault: ReplayFault) -> Mark
    ensures { result ≡ replay_mark fault }
{
    match fault {
        ReplayFault::NoMemory => plain(Kind::NoMemory),
        ReplayFault::NotLive(place, ticket) => Mark {
            kind: Kind::NotLive,
            place: Some(place),
            ticket,
        },
        ReplayFault::AfterAnswer(place) => placed(Kind::AfterAnswer, place),
    }
}

/// The mark of a list's fault.
fn batch_mark(fault: BatchFault) -> Mark
    ensures { result ≡ batch_mark fault }
{
    match fault {
        BatchFault::NoMemory => plain(Kind::NoMemory),
        BatchFault::TooLong => plain(Kind::TooLong),
        BatchFault::BadHeader => plain(Kind::BadHeader),
        BatchFault::BadLine(n) => placed(Kind::BadLine, n),
        BatchFault::TooMany(n) => placed(Kind::TooMany, n),
        BatchFault::NoEnd => plain(Kind::NoEnd),
    }
}

/// The mark of a fault without a place.
fn plain(kind: Kind) -> Mark
    ensures { result ≡ plain kind }
{
    Mark {
        kind,
        place: None,
        ticket: 0,
    }
}

/// The mark of a fault with its place.
fn placed(kind: Kind, at: u32) -> Mark
    ensures { result ≡ placed kind at }
{
    Mark {
        kind,
        place: Some(at),
        ticket: 0,
    }
}
