//! Benches driven by one worker, by two, and by as many as there may be.

use crate::benches::{Numbers, Relay};
use gate_workers::{OpenGate, drive};
use std::test::Fail;
use testing_gates::{Counting, Meeting};

#[test]
fn each_number_is_worked_once(rt: HostRuntime) -> Result<(), Fail> {
    for workers in [1, 2, 64] {
        let gate = Counting::new(rt.alloc(), workers)?;
        let bench = drive(
            &rt,
            rt.alloc(),
            Numbers::down_from(1000, 0),
            &3,
            workers,
            &gate,
        );
        assert_eq!(rt; bench.sum, 1_501_500);
        assert_eq!(rt; bench.held, 0);
        assert_eq!(rt; bench.stops, 0);
        assert_eq!(rt; gate.calls(), 1000);
        assert_eq!(rt; gate.wrong_turns(), 0);
    }
    Ok(())
}

#[test]
fn one_piece_at_a_time_comes_to_its_end(rt: HostRuntime) -> Result<(), Fail> {
    for workers in [1, 2, 64] {
        let gate = Counting::new(rt.alloc(), workers)?;
        let relay = Relay {
            left: 1000,
            out: false,
            passed: 0,
        };
        let bench = drive(&rt, rt.alloc(), relay, &gate, workers, &gate);
        assert_eq!(rt; bench.left, 0);
        assert!(rt; !bench.out);
        // the gate is passed before a piece is worked
        assert_eq!(rt; bench.passed, 500_500);
    }
    Ok(())
}

#[test]
fn two_workers_are_past_the_lock_at_once(rt: HostRuntime) -> Result<(), Fail> {
    let gate = Meeting::new();
    let bench = drive(&rt, rt.alloc(), Numbers::down_from(100, 0), &1, 2, &gate);
    assert_eq!(rt; bench.sum, 5050);
    assert!(rt; gate.have_met());
    Ok(())
}

#[test]
fn want_of_memory_stops_the_bench(rt: HostRuntime) -> Result<(), Fail> {
    for workers in [1, 2, 64] {
        let bench = drive(
            &rt,
            rt.alloc(),
            Numbers::down_from(1000, 500),
            &1,
            workers,
            &OpenGate,
        );
        assert!(rt; bench.stops > 0);
        assert!(rt; bench.asked_after < workers);
        assert!(rt; bench.sum < 500_500);
    }
    Ok(())
}
