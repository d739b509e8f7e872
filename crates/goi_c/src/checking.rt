//! Checks, listings, circuits and replays.

ghost use Rattle.std.specs.Prelude.{Some, IfOk, IfErr};
ghost use Rattle.program_runs.specs.Programs.{OfGround};
ghost use Rattle.goi_jobs.specs.Ranges.{IsWindow};
ghost use Rattle.goi_jobs.specs.declared.task.Task.TheVariants.{Check, ShowNet};
ghost use Rattle.goi_tasks.specs.Seen.{output_of};
ghost use Rattle.goi_tasks.specs.Programs.{FaultyEither};
ghost use Rattle.goi_tasks.specs.Replaying.{FaultySchedule, ReportsReplay};
ghost use Rattle.goi_tasks.specs.Stops.{StopsFor};
ghost use Rattle.goi_tasks.specs.Backs.{back};
ghost use Rattle.goi_c.specs.Calls.{CallsCircuit, CallsReplay, CallsReplayTrace, CallsTask, IsAskedCircuit};
ghost use Rattle.goi_c.specs.Calls.{OwnsCircuit, OwnsReplay, OwnsTask, part};

use goi_jobs::{MOST_CELLS, MOST_FORKS, TRACED_MOVES, Task, Verilog, Window};
use goi_tasks::{
    BAD_CALL, Report, Stop, give_nothing, give_result, law_tasks_settled, replay_text,
    report_replay, report_text, report_verilog,
};
use pcf_values::limits::SCHEDULE_MOVES;
use program_runs::{Alone, Calling, net_for};
use std::alloc::Global;

/// Tells the type of a text's program, and with `term` the program itself behind it.
#[unsafe(no_mangle)]
pub extern "C" fn goi_check(
    alloc: Global,
    text: &[u8],
    term: bool,
    out: &mut [u8],
    needed: &mut usize,
) -> u32
    ensures calls { CallsTask (Check term) text.now (back result needed.new out.old out.new) }
    ensures own { OwnsTask (Check term) text.now (back result needed.new out.old out.new) }
{
    law_tasks_settled();
    let checked = report_text(alloc, text, Task::Check { term }, &Alone);
    give_result(alloc, checked, out, needed)
}

/// Lists the net of a text's program.
#[unsafe(no_mangle)]
pub extern "C" fn goi_net(alloc: Global, text: &[u8], out: &mut [u8], needed: &mut usize) -> u32
    ensures calls { CallsTask ShowNet text.now (back result needed.new out.old out.new) }
    ensures own { OwnsTask ShowNet text.now (back result needed.new out.old out.new) }
{
    law_tasks_settled();
    let listed = report_text(alloc, text, Task::ShowNet, &Alone);
    give_result(alloc, listed, out, needed)
}

/// Prints the circuit of a text's program or function, as a module of the name `goi` with so many cells and forks.
#[unsafe(no_mangle)]
pub extern "C" fn goi_circuit(
    alloc: Global,
    text: &[u8],
    cells: u32,
    forks: u32,
    out: &mut [u8],
    needed: &mut usize,
) -> u32
    ensures calls { CallsCircuit text.now cells forks (back result needed.new out.old out.new) }
    ensures own { IsAskedCircuit cells forks → OwnsCircuit text.now cells forks (back result needed.new out.old out.new) }
{
    law_tasks_settled();
    if cells < 1 || MOST_CELLS < cells || forks < 1 || MOST_FORKS < forks {
        return give_nothing(needed, BAD_CALL);
    }
    let printed = report_verilog(
        alloc,
        text,
        b"goi",
        Verilog::Circuit {
            cells,
            forks,
            handshake: false,
        },
    );
    give_result(alloc, printed, out, needed)
}

/// Runs a schedule on the net of a text's program.
#[unsafe(no_mangle)]
pub extern "C" fn goi_replay(
    alloc: Global,
    text: &[u8],
    schedule: &[u8],
    out: &mut [u8],
    needed: &mut usize,
) -> u32
    ensures calls { CallsReplay text.now schedule.now (back result needed.new out.old out.new) }
    ensures own { OwnsReplay text.now schedule.now (back result needed.new out.old out.new) }
{
    law_tasks_settled();
    let replayed = replay_text(alloc, text, schedule);
    give_result(alloc, replayed, out, needed)
}

/// Runs a schedule on the net of a text's program, and tells the two lines of the replay, and behind them a part of the trace of its moves:
/// from this move on, counted from 0, at most so many.
#[unsafe(no_mangle)]
pub extern "C" fn goi_replay_trace(
    alloc: Global,
    text: &[u8],
    schedule: &[u8],
    from: u32,
    most: u32,
    out: &mut [u8],
    needed: &mut usize,
) -> u32
    ensures calls { CallsReplayTrace text.now schedule.now (part from most) (back result needed.new out.old out.new) }
    ensures own { IsWindow (part from most) → OwnsReplay text.now schedule.now (back result needed.new out.old out.new) }
{
    law_tasks_settled();
    if SCHEDULE_MOVES < from || most < 1 || TRACED_MOVES < most {
        return give_nothing(needed, BAD_CALL);
    }
    let walked = replay_walk(alloc, text, schedule, Window { from, most });
    give_result(alloc, walked, out, needed)
}

/// The report of a schedule on the net of a text's program, with this part of its trace.
fn replay_walk(alloc: Global, bytes: &[u8], schedule: &[u8], window: Window) -> Result<Report, Stop>
    ensures report { IfOk result (λ r. OfGround bytes.now (λ t. ReportsReplay t (Some window) schedule.now (output_of r))) }
    ensures fault { IfErr result (λ e. StopsFor (λ f. FaultyEither bytes.now (λ t. FaultySchedule t schedule.now f) f) e) }
{
    let net = net_for(alloc, bytes, Calling::ByName)?;
    let report = report_replay(alloc, &net, schedule, Some(window));
    drop(net);
    report
}
