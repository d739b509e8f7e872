//! The lines that tell faults.

ghost use Rattle.std.specs.Prelude.{◌≡◌, ◌≤◌, length, IfOk, string_bytes};
ghost use Rattle.goi_tasks.specs.Refusals.{most_line, IsLine, TellsFault, fault_status, plain_line, placed_line, inner_line, ticket_line};
ghost use Rattle.goi_tasks.specs.Refusals.{program_fault_line, read_fault_line, type_fault_line, by_value_fault_line, net_text_fault_line};
ghost use Rattle.goi_tasks.specs.Refusals.{unsound_line, schedule_fault_line, replay_fault_line, batch_fault_line};

use crate::fault::Fault;
use batch_lists::BatchFault;
use cbv_terms::ByValueFault;
use net_check::NetFault;
use net_text::NetTextFault;
use pcf_reader::ReadFault;
use pcf_types::TypeFault;
use program_runs::ProgramFault;
use replay_check::ReplayFault;
use schedule_log::ScheduleFault;
use std::alloc::{AllocError, Global};

/// The line that tells a fault, and the status with which that ends.
#[derive(Drop)]
pub struct Refusal {
    /// The line, with its line feed.
    pub line: Vec<u8>,
    /// The status.
    pub status: u8,
}

/// The refusal for a fault.
///
/// # Errors
///
/// It runs out of memory.
pub fn refuse(alloc: Global, fault: Fault) -> Result<Refusal, AllocError>
    ensures { IfOk result (λ r. TellsFault fault r) }
{
    Ok(Refusal {
        line: fault_line(alloc, fault)?,
        status: fault_status(fault),
    })
}

/// 1 for a fault of a program, and 7 for one of a schedule, of a net file or of a list.
fn fault_status(fault: Fault) -> u8
    ensures { result ≡ fault_status fault }
{
    match fault {
        Fault::Program(_) => 1,
        Fault::NetText(_) | Fault::Schedule(_) | Fault::Moves(_) | Fault::Batch(_) => 7,
    }
}

/// The line of a fault.
fn fault_line(alloc: Global, fault: Fault) -> Result<Vec<u8>, AllocError>
    ensures { IfOk result (λ v. IsLine fault v.items) }
{
    let text = match fault {
        Fault::Program(fault) => program_line(alloc, fault),
        Fault::NetText(fault) => net_text_line(alloc, fault),
        Fault::Schedule(fault) => schedule_line(alloc, fault),
        Fault::Moves(fault) => replay_line(alloc, fault),
        Fault::Batch(fault) => batch_line(alloc, fault),
    };
    Ok(text?.into_bytes())
}

/// The line of a program's fault.
fn program_line(alloc: Global, fault: ProgramFault) -> Result<String, AllocError>
    ensures line { IfOk result (λ text. string_bytes text ≡ program_fault_line fault) }
    ensures short { IfOk result (λ text. length (string_bytes text) ≤ most_line) }
{
    match fault {
        ProgramFault::Read(fault) => read_line(alloc, fault),
        ProgramFault::Typing(fault) => type_line(alloc, fault),
        ProgramFault::NotGround => plain_line(alloc, "NotGround"),
        ProgramFault::ByValue(fault) => by_value_line(alloc, fault),
    }
}

/// The line of a fault of reading.
fn read_line(alloc: Global, fault: ReadFault) -> Result<String, AllocError>
    ensures line { IfOk result (λ text. string_bytes text ≡ read_fault_line fault) }
    ensures short { IfOk result (λ text. length (string_bytes text) ≤ most_line) }
{
    match fault {
        ReadFault::NoMemory => plain_line(alloc, "NoMemory"),
        ReadFault::NotText(at) => placed_line(alloc, "NotText", at),
        ReadFault::BadToken(at) => placed_line(alloc, "BadToken", at),
        ReadFault::NumberTooWide(at) => placed_line(alloc, "NumberTooWide", at),
        ReadFault::Unexpected(at) => placed_line(alloc, "Unexpected", at),
        ReadFault::TooDeep(at) => placed_line(alloc, "TooDeep", at),
        ReadFault::TooLarge(at) => placed_line(alloc, "TooLarge", at),
        ReadFault::TooLong => plain_line(alloc, "TooLong"),
    }
}

/// The line of a fault of scope or type.
fn type_line(alloc: Global, fault: TypeFault) -> Result<String, AllocError>
    ensures line { IfOk result (λ text. string_bytes text ≡ type_fault_line fault) }
    ensures short { IfOk result (λ text. length (string_bytes text) ≤ most_line) }
{
    match fault {
        TypeFault::NoMemory => plain_line(alloc, "NoMemory"),
        TypeFault::Unbound(at) => placed_line(alloc, "Unbound", at),
        TypeFault::FunctionWanted(at) => placed_line(alloc, "FunctionWanted", at),
        TypeFault::ArgumentMismatch(at) => placed_line(alloc, "ArgumentMismatch", at),
        TypeFault::NatWanted(at) => placed_line(alloc, "NatWanted", at),
        TypeFault::FixMismatch(at) => placed_line(alloc, "FixMismatch", at),
        TypeFault::PairWanted(at) => placed_line(alloc, "PairWanted", at),
    }
}

/// The line of a fault of a program that is called by value.
fn by_value_line(alloc: Global, fault: ByValueFault) -> Result<String, AllocError>
    ensures line { IfOk result (λ text. string_bytes text ≡ by_value_fault_line fault) }
    ensures short { IfOk result (λ text. length (string_bytes text) ≤ most_line) }
{
    match fault {
        ByValueFault::NoMemory => plain_line(alloc, "NoMemory"),
        ByValueFault::ByValueFix(at) => placed_line(alloc, "ByValueFix", at),
        ByValueFault::ByValuePair(at) => placed_line(alloc, "ByValuePair", at),
        ByValueFault::ByValueDeep => plain_line(alloc, "ByValueDeep"),
    }
}

/// The line of a listing's fault.
fn net_text_line(alloc: Global, fault: NetTextFault) -> Result<String, AllocError>
    ensures line { IfOk result (λ text. string_bytes text ≡ net_text_fault_line fault) }
    ensures short { IfOk result (λ text. length (string_bytes text) ≤ most_line) }
{
    match fault {
        NetTextFault::NoMemory => plain_line(alloc, "NoMemory"),
        NetTextFault::BadLine(n) => placed_line(alloc, "BadLine", n),
        NetTextFault::NotSound(fault) => unsound_line(alloc, fault),
        NetTextFault::NotOfTerm => plain_line(alloc, "NotOfTerm"),
        NetTextFault::TooLong => plain_line(alloc, "TooLong"),
    }
}

/// The line of a listed net that isn't sound.
fn unsound_line(alloc: Global, fault: NetFault) -> Result<String, AllocError>
    ensures line { IfOk result (λ text. string_bytes text ≡ unsound_line fault) }
    ensures short { IfOk result (λ text. length (string_bytes text) ≤ most_line) }
{
    match fault {
        NetFault::NoMemory => plain_line(alloc, "NoMemory"),
        NetFault::LooseWire(n) => inner_line(alloc, "LooseWire", n),
        NetFault::TypeClash(n) => inner_line(alloc, "TypeClash", n),
        NetFault::DepthClash(n) => inner_line(alloc, "DepthClash", n),
        NetFault::RootCount(n) => inner_line(alloc, "RootCount", n),
    }
}

/// The line of a schedule's fault.
fn schedule_line(alloc: Global, fault: ScheduleFault) -> Result<String, AllocError>
    ensures line { IfOk result (λ text. string_bytes text ≡ schedule_fault_line fault) }
    ensures short { IfOk result (λ text. length (string_bytes text) ≤ most_line) }
{
    match fault {
        ScheduleFault::NoMemory => plain_line(alloc, "NoMemory"),
        ScheduleFault::BadHeader => plain_line(alloc, "BadHeader"),
        ScheduleFault::BadLine(n) => placed_line(alloc, "BadLine", n),
        ScheduleFault::TicketTooWide(n) => placed_line(alloc, "TicketTooWide", n),
        ScheduleFault::NoEnd => plain_line(alloc, "NoEnd"),
        ScheduleFault::TooLong(n) => placed_line(alloc, "TooLong", n),
    }
}

/// The line of a schedule whose moves aren't a run of the program.
fn replay_line(alloc: Global, fault: ReplayFault) -> Result<String, AllocError>
    ensures line { IfOk result (λ text. string_bytes text ≡ replay_fault_line fault) }
    ensures short { IfOk result (λ text. length (string_bytes text) ≤ most_line) }
{
    match fault {
        ReplayFault::NoMemory => plain_line(alloc, "NoMemory"),
        ReplayFault::NotLive(place, ticket) => ticket_line(alloc, "NotLive", place, ticket),
        ReplayFault::AfterAnswer(place) => placed_line(alloc, "AfterAnswer", place),
    }
}

/// The line of a list's fault.
fn batch_line(alloc: Global, fault: BatchFault) -> Result<String, AllocError>
    ensures line { IfOk result (λ text. string_bytes text ≡ batch_fault_line fault) }
    ensures short { IfOk result (λ text. length (string_bytes text) ≤ most_line) }
{
    match fault {
        BatchFault::NoMemory => plain_line(alloc, "NoMemory"),
        BatchFault::TooLong => plain_line(alloc, "TooLong"),
        BatchFault::BadHeader => plain_line(alloc, "BadHeader"),
        BatchFault::BadLine(n) => placed_line(alloc, "BadLine", n),
        BatchFault::TooMany(n) => placed_line(alloc, "TooMany", n),
        BatchFault::NoEnd => plain_line(alloc, "NoEnd"),
    }
}

/// The line of a fault without a place.
fn plain_line(alloc: Global, name: &str) -> Result<String, AllocError>
    requires { length name.now ≤ 20 }
    ensures line { IfOk result (λ text. string_bytes text ≡ plain_line name.now) }
    ensures short { IfOk result (λ text. length (string_bytes text) ≤ most_line) }
{
    format!(in alloc; "refused: {name}\n")
}

/// The line of a fault with its place.
fn placed_line(alloc: Global, name: &str, at: u32) -> Result<String, AllocError>
    requires { length name.now ≤ 20 }
    ensures line { IfOk result (λ text. string_bytes text ≡ placed_line name.now at) }
    ensures short { IfOk result (λ text. length (string_bytes text) ≤ most_line) }
{
    format!(in alloc; "refused: {name}({at})\n")
}

/// The line of a fault with its place and its ticket.
fn ticket_line(alloc: Global, name: &str, at: u32, ticket: u32) -> Result<String, AllocError>
    requires { length name.now ≤ 20 }
    ensures line { IfOk result (λ text. string_bytes text ≡ ticket_line name.now at ticket) }
    ensures short { IfOk result (λ text. length (string_bytes text) ≤ most_line) }
{
    format!(in alloc; "refused: {name}({at},{ticket})\n")
}

/// The line of a net that isn't sound, with the number of its fault.
fn inner_line(alloc: Global, name: &str, at: u32) -> Result<String, AllocError>
    requires { length name.now ≤ 20 }
    ensures line { IfOk result (λ text. string_bytes text ≡ inner_line name.now at) }
    ensures short { IfOk result (λ text. length (string_bytes text) ≤ most_line) }
{
    format!(in alloc; "refused: NotSound({name}({at}))\n")
}
