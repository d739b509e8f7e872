//! The first fault of a text, as numbers.

ghost use Rattle.std.specs.Prelude.{◌≡◌, false};
ghost use Rattle.function_runs.specs.Functions.{FaultyFunction};
ghost use Rattle.goi_tasks.specs.Programs.{IsProgramFault};
ghost use Rattle.goi_tasks.specs.Refusals.{fault_status};
ghost use Rattle.goi_tasks.specs.Tasks.{FaultyFor};
ghost use Rattle.goi_jobs.specs.Tasks.{IsWithin, progress_of};
ghost use Rattle.goi_c.specs.Faults.{FaultIs, IsNoFault, LinesOfMarks};
ghost use Rattle.goi_c.specs.Finding.{CallsFind, CallsFindSchedule, Finds};
ghost use Rattle.goi_c.specs.Giving.{Fills, FillsResult};

use crate::kinds::number;
use crate::marks::mark_of;
use function_runs::{compile, law_one_function};
use goi_jobs::Task;
use goi_tasks::{
    Fault, NO_MEMORY, Report, Stop, law_tasks_settled, replay_text, report_text, task_taken,
};
use program_runs::{Alone, NoRun};
use std::alloc::Global;

/// A fault in numbers.
#[repr(C)]
#[derive(Drop)]
pub struct FaultData {
    /// The status with which it ends: 1 where a program has it, 7 where a schedule or a listing has, and 0 where there is none.
    pub status: u32,
    /// Which fault it is, from 1 on, and 0 where there is none.
    pub kind: u32,
    /// Where it is, and 2^32 - 1 where it has no place.
    pub place: u32,
    /// The ticket that isn't live, and else 0.
    pub ticket: u32,
}

/// The number that stands for no place.
const NO_PLACE: u32 = 4_294_967_295;

/// Tells the first fault of a text in numbers.
///
/// The text is taken for a program of any type at 0, for one of type `nat` at 1, for one that runs by value at 2, for the listing of a
/// program's net at 3, and for a function of n numbers at 4 + n.
#[unsafe(no_mangle)]
pub extern "C" fn goi_find_fault(
    alloc: Global,
    text: &[u8],
    taken: u32,
    fault: &mut FaultData,
) -> u32
    ensures finds { CallsFind text.now taken result fault.new }
    ensures lines { LinesOfMarks }
{
    if taken < 4 {
        find_for(alloc, text, task_taken(taken), fault)
    } else {
        find_in_function(alloc, text, taken - 4, fault)
    }
}

/// Tells the first fault of a program's text, or else of a schedule that is to be run on the program's net, in numbers.
#[unsafe(no_mangle)]
pub extern "C" fn goi_find_schedule_fault(
    alloc: Global,
    text: &[u8],
    schedule: &[u8],
    fault: &mut FaultData,
) -> u32
    ensures { CallsFindSchedule text.now schedule.now result fault.new }
{
    law_tasks_settled();
    let replayed = replay_text(alloc, text, schedule);
    fill_result(replayed, fault)
}

/// Tells the first fault of a text as one for this task.
fn find_for(alloc: Global, bytes: &[u8], task: Task, fault: &mut FaultData) -> u32
    requires within { IsWithin task }
    requires quiet { progress_of task ≡ false }
    ensures { Finds (FaultyFor task bytes.now) result fault.new }
{
    law_tasks_settled();
    let done = report_text(alloc, bytes, task, &Alone);
    fill_result(done, fault)
}

/// Tells the first fault of a text as a function of so many numbers.
fn find_in_function(alloc: Global, bytes: &[u8], arguments: u32, fault: &mut FaultData) -> u32
    ensures { Finds (IsProgramFault (FaultyFunction arguments bytes.now)) result fault.new }
{
    law_one_function();
    match compile(alloc, bytes, arguments as usize) {
        Ok(function) => {
            drop(function);
            fill_none(fault, 0)
        }
        Err(NoRun::Memory) => fill_none(fault, NO_MEMORY),
        Err(NoRun::Fault(found)) => fill_fault(Fault::Program(found), fault),
    }
}

/// Fills in what kept a task from being done.
fn fill_result(done: Result<Report, Stop>, fault: &mut FaultData) -> u32
    ensures { FillsResult done result fault.new }
{
    match done {
        Ok(report) => {
            drop(report);
            fill_none(fault, 0)
        }
        Err(stop) => fill_stop(stop, fault),
    }
}

/// Fills in a fault, or none where there was no memory.
fn fill_stop(stop: Stop, fault: &mut FaultData) -> u32
    ensures { Fills stop result fault.new }
{
    match stop {
        Stop::Memory => fill_none(fault, NO_MEMORY),
        Stop::Fault(found) => fill_fault(found, fault),
    }
}

/// Fills in a fault.
fn fill_fault(found: Fault, fault: &mut FaultData) -> u32
    ensures status { result ≡ fault_status found }
    ensures fault { FaultIs found fault.new }
{
    let data = data_of(found);
    let status = data.status;
    *fault = data;
    status
}

/// Fills in no fault.
fn fill_none(fault: &mut FaultData, status: u32) -> u32
    ensures status { result ≡ status }
    ensures none { IsNoFault fault.new }
{
    *fault = FaultData {
        status: 0,
        kind: 0,
        place: NO_PLACE,
        ticket: 0,
    };
    status
}

/// A fault in numbers.
fn data_of(fault: Fault) -> FaultData
    ensures { FaultIs fault result }
{
    let mark = mark_of(fault);
    FaultData {
        status: status_of_fault(fault),
        kind: number(mark.kind),
        place: mark.place.unwrap_or(NO_PLACE),
        ticket: mark.ticket,
    }
}

/// 1 for a fault of a program, and 7 for one of a schedule, of a listing or of a list.
fn status_of_fault(fault: Fault) -> u32
    ensures { result ≡ fault_status fault }
{
    match fault {
        Fault::Program(_) => 1,
        Fault::NetText(_) | Fault::Schedule(_) | Fault::Moves(_) | Fault::Batch(_) => 7,
    }
}
