//! How a text is given back.

ghost use Rattle.std.specs.Prelude.{◌≡◌};
ghost use Rattle.goi_tasks.specs.declared.fault.Fault.{Fault};
ghost use Rattle.goi_tasks.specs.Backs.{back, Gives};
ghost use Rattle.goi_tasks.specs.Giving.{OfResult, OfStop};

use crate::fault::Fault;
use crate::refusal::refuse;
use crate::report::Report;
use crate::stop::Stop;
use std::alloc::Global;

/// The status where the numbers of a call ask for nothing.
pub const BAD_CALL: u32 = 2;
/// The status where a text is longer than the buffer.
const NO_ROOM: u32 = 4;
/// The status where there was no memory.
pub const NO_MEMORY: u32 = 6;

/// Gives back what came of a task: its report, or the line of its fault, with the status of either.
///
/// `needed` is told the length of the text in bytes.
pub fn give_result(
    alloc: Global,
    result_of_task: Result<Report, Stop>,
    out: &mut [u8],
    needed: &mut usize,
) -> u32
    ensures { OfResult result_of_task (back result needed.new out.old out.new) }
{
    match result_of_task {
        Ok(report) => {
            let status = give(out, needed, &report.text, report.status);
            drop(report);
            status
        }
        Err(stop) => give_stop(alloc, stop, out, needed),
    }
}

/// Gives back the line of a fault, or says that there was no memory.
pub fn give_stop(alloc: Global, stop: Stop, out: &mut [u8], needed: &mut usize) -> u32
    ensures { OfStop stop (back result needed.new out.old out.new) }
{
    match stop {
        Stop::Fault(fault) => give_fault(alloc, fault, out, needed),
        Stop::Memory => give_nothing(needed, NO_MEMORY),
    }
}

/// Gives back the line of a fault.
pub fn give_fault(alloc: Global, fault: Fault, out: &mut [u8], needed: &mut usize) -> u32
    ensures { OfStop (Stop.Fault fault) (back result needed.new out.old out.new) }
{
    match refuse(alloc, fault) {
        Ok(refusal) => {
            let status = give(out, needed, &refusal.line, refusal.status);
            drop(refusal);
            status
        }
        Err(_) => give_nothing(needed, NO_MEMORY),
    }
}

/// Gives back a status alone: the length that is told is 0.
pub fn give_nothing(needed: &mut usize, status: u32) -> u32
    ensures status { result ≡ status }
    ensures needed { needed.new ≡ 0 }
{
    *needed = 0;
    status
}

/// Gives a text with its status where it fits, and else the status 4; `needed` is told its length in bytes.
pub fn give(out: &mut [u8], needed: &mut usize, text: &[u8], status: u8) -> u32
    ensures { Gives status text.now (back result needed.new out.old out.new) }
{
    *needed = text.len();
    if text.len() <= out.len() {
        let (front, _) = out.split_at_mut(text.len());
        front.copy_from_slice(text);
        status as u32
    } else {
        NO_ROOM
    }
}
