//! The report of a run in which the finisher booked a move, which no call from outside can ask for.

ghost use Rattle.std.specs.Prelude.{IfOk};
ghost use Rattle.goi_reports.specs.Booked.{BookedWithin};

use goi_reports::{Parts, run_report};
use pcf_values::Val;
use schedule_log::Log;
use std::alloc::{AllocError, Global};
use std::test::Fail;

/// A log of two moves, of which the finisher behind one worker booked the second.
fn two_moves(alloc: Global) -> Result<Log, AllocError>
    ensures { IfOk result (λ log. BookedWithin 1 log.entries) }
{
    let mut log = Log::with_room(alloc, 2)?;
    log.push(0, 0);
    log.push(1, 1);
    Ok(log)
}

/// The report of two moves that end with 3, with a schedule and a tally.
fn run_text(alloc: Global) -> Result<Vec<u8>, AllocError> {
    let log = two_moves(alloc)?;
    let parts = Parts {
        schedule: true,
        tally: true,
    };
    run_report(alloc, Some(Val::Number(3)), &log, 1, parts)
}

#[test]
fn a_move_of_the_finisher(rt: HostRuntime) -> Result<(), Fail> {
    let text = run_text(rt.alloc())?;
    assert!(rt;
        text.as_slice()
            == b"value 3\nmoves 2\nschedule 2\n0 1\n1 1\nend\nworker 0 1\nfinisher 1\n".as_slice()
    );
    Ok(())
}
