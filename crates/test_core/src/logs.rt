//! Logs, and what is printed of them.

use schedule_log::{Log, print_schedule, read_schedule};
use std::alloc::{AllocError, Global};
use std::test::Fail;

/// A log of four moves of three workers.
fn four_moves(alloc: Global) -> Result<Log, AllocError> {
    let mut log = Log::with_room(alloc, 4)?;
    log.push(7, 1);
    log.push(7, 0);
    log.push(4_294_967_295, 1);
    log.push(7, 64);
    Ok(log)
}

/// Whether this is that log.
fn is_four_moves(log: &Log) -> bool {
    let rows = [
        (0, Some(7), Some(1)),
        (1, Some(7), Some(0)),
        (2, Some(4_294_967_295), Some(1)),
        (3, Some(7), Some(64)),
        (4, None, None),
        (4_294_967_295, None, None),
    ];
    // Each move differs from the one before it.
    if log.runs().len() != 4 {
        return false;
    }
    for (place, ticket, worker) in rows {
        if log.ticket(place) != ticket || log.worker(place) != worker {
            return false;
        }
    }
    log.len() == 4
}

#[test]
fn entries(rt: HostRuntime) -> Result<(), Fail> {
    let log = four_moves(rt.alloc())?;
    assert!(rt; is_four_moves(&log));
    let other = log.copy(rt.alloc())?;
    assert!(rt; is_four_moves(&other));
    let none = Log::with_room(rt.alloc(), 0)?;
    assert!(rt; none.len() == 0 && none.ticket(0) == None && none.worker(0) == None);
    Ok(())
}

#[test]
fn tallies(rt: HostRuntime) -> Result<(), Fail> {
    let log = four_moves(rt.alloc())?;
    for (worker, count) in [(0, 1), (1, 2), (2, 0), (63, 0), (64, 1), (4_294_967_295, 0)] {
        assert!(rt; log.tally_of(worker) == count);
    }
    Ok(())
}

/// Whether this is printed of a log.
fn is_printed(alloc: Global, log: Log, wanted: &[u8]) -> Result<bool, AllocError> {
    let text = print_schedule(alloc, &log);
    drop(log);
    Ok(text?.as_slice() == wanted)
}

#[test]
fn printed(rt: HostRuntime) -> Result<(), Fail> {
    let wanted = b"schedule 2\n7 2\n4294967295 1\n7 1\nend\n";
    assert!(rt; is_printed(rt.alloc(), four_moves(rt.alloc())?, wanted)?);
    assert!(rt;
        is_printed(
            rt.alloc(),
            Log::with_room(rt.alloc(), 3)?,
            b"schedule 2\nend\n"
        )?
    );
    Ok(())
}

/// So many moves of two tickets in turn, the widest ones.
fn in_turn(alloc: Global, count: u32) -> Result<Log, AllocError> {
    let mut log = Log::with_room(alloc, count)?;
    for i in 0..count {
        log.push(4_294_967_294 + i % 2, 0);
    }
    Ok(log)
}

/// How many of the runs are not those of two tickets in turn, each of one move by worker 0.
fn count_other(log: &Log) -> u32 {
    let mut other = 0u32;
    let mut ticket = 4_294_967_294u32;
    for run in log.runs() {
        if run.ticket() != ticket || run.worker() != 0 || run.count() != 1 {
            other = other.saturating_add(1);
        }
        ticket = if ticket == 4_294_967_294 {
            4_294_967_295
        } else {
            4_294_967_294
        };
    }
    other
}

/// Whether these are so many moves of two tickets in turn.
fn are_in_turn(log: &Log, count: u32) -> bool {
    log.len() == count && log.runs().len() == count as usize && count_other(log) == 0
}

/// Whether a text is read as so many moves of two tickets in turn.
fn is_in_turn(alloc: Global, text: &[u8], count: u32) -> bool {
    match read_schedule(alloc, text) {
        Ok(log) => are_in_turn(&log, count),
        Err(_) => false,
    }
}

#[test]
fn a_million_moves_in_turn(rt: HostRuntime) -> Result<(), Fail> {
    let log = in_turn(rt.alloc(), 1_000_000)?;
    assert!(rt; are_in_turn(&log, 1_000_000));
    let text = print_schedule(rt.alloc(), &log)?;
    assert!(rt; text.len() == 13_000_015);
    assert!(rt; is_in_turn(rt.alloc(), &text, 1_000_000));
    Ok(())
}
