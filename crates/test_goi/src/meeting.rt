//! Calls of `goi` in which two workers hold pieces at once.

use crate::devices::{SOUND, answered_at, texts};
use crate::lists::push_file;
use goi_world::MemoryFiles;
use pcf_values::Ident;
use std::alloc::{AllocError, Global};
use std::sync::Wait;
use std::test::Fail;
use std::thread::Threads;
use testing_gates::{Meeting, cut};

/// The listing of the net of `(fun x:nat. x + x) 3`.
const DOUBLE: &str = "net 1;\
wire 0 value 0 nat;wire 1 var 0 nat;wire 2 value 0 nat;wire 3 var 0 nat;wire 4 var 0 nat;wire 5 value 0 nat;\
wire 6 value 0 nat -> nat;wire 7 value 1 nat;wire 8 bang 0 nat;wire 9 value 0 nat;\
node 0 Der 0 1;node 1 Der 2 3;node 2 Con 1 3 4;node 3 Plus 0 2 5;node 4 Lam 5 4 6;node 5 Const 3 7;node 6 Box 7 8;\
node 7 App 6 8 9;node 8 Root 9;end;";

/// The files of a call: a program `p`, the listing `n` of its net, the list `l` of it four times, so that each of two workers has a second
/// job, at whose gate it lets the other one go on, a function `o` of two numbers, and a program `q` whose halves fork.
fn files(alloc: Global) -> Result<MemoryFiles, AllocError> {
    let mut held = Vec::new(alloc);
    push_all(alloc, &mut held)?;
    Ok(MemoryFiles::new(held, 1_000_000, Vec::new(alloc)))
}

/// Puts those files there.
fn push_all(alloc: Global, held: &mut Vec<(Ident, Vec<u8>)>) -> Result<(), AllocError> {
    push_file(alloc, held, "p", "(fun x:nat. x + x) 3")?;
    push_file(alloc, held, "n", DOUBLE)?;
    push_file(alloc, held, "o", "fun x:nat. fun y:nat. x - y")?;
    push_file(alloc, held, "q", "(1 + 2) + (3 + 4)")?;
    push_file(
        alloc,
        held,
        "l",
        "batch 1;job 30 p;job 29 p;job 30 p;job 29 p;end;",
    )
}

/// What a call of two workers on these files leaves, at this gate.
fn left<R: Threads + Wait + Sync>(
    rt: &R,
    alloc: Global,
    words: &str,
    gate: &Meeting,
) -> Result<Vec<u8>, AllocError> {
    let words = texts(alloc, words)?;
    let mut files = files(alloc)?;
    answered_at(rt, alloc, &words, &mut files, SOUND, gate)
}

/// Whether two workers meet in a row's call, each with a piece at least, and it leaves what begins as the row says.
fn meets<R: Threads + Wait + Sync>(rt: &R, alloc: Global, row: &str) -> Result<bool, AllocError> {
    let (words, wanted) = cut(row, '|');
    let gate = Meeting::new();
    let seen = left(rt, alloc, words, &gate)?;
    Ok(
        seen.starts_with(wanted.as_bytes())
            && gate.have_met()
            && gate.calls_of_first() > 0
            && gate.calls_of_second() > 0,
    )
}

/// The number of the first line in whose call two workers don't meet. Empty lines are no rows.
fn first_alone<R: Threads + Wait + Sync>(
    rt: &R,
    alloc: Global,
    table: &str,
) -> Result<Option<usize>, AllocError> {
    for (i, row) in table.split('\n').enumerate() {
        if !row.is_empty() && !meets(rt, alloc, row)? {
            return Ok(Some(i));
        }
    }
    Ok(None)
}

#[test]
fn two_workers_meet_in_each_command(rt: HostRuntime) -> Result<(), Fail> {
    let table = "
goi run p --workers 2|0 value 6;moves 30;
goi run p --workers 2 --by-value|0 value 6;moves
goi run p --workers 2 --progress|0 value 6;moves 30;progress
goi trace p --workers 2|0 value 6;moves 30;trace 1;
goi run-net n --workers 2|0 value 6;moves 30;
goi call o 5 3 --workers 2|0 value 2;moves 34;
goi demo 1 --workers 2|0 demo 1;nodes 13;value 4;moves 126;
goi batch l --workers 2|5 job 0;value 6;moves 30;job 1;no value;moves 29;job 2;value 6;moves 30;job 3;no value;moves 29;
";
    assert!(rt; first_alone(&rt, rt.alloc(), table)? == None);
    Ok(())
}

/// The sums of the numbers at the ends of a report's lines: of the lines of its schedule, and of those of its tally.
fn sums(report: &[u8]) -> (u32, u32) {
    let mut schedule = 0u32;
    let mut tally = 0u32;
    let mut lines = 0u32;
    let mut number = 0u32;
    let mut ended = false;
    for byte in report {
        // the lines of a schedule have digits and blanks alone, and its last one is `end`
        ended = ended || (lines >= 3 && *byte == b'e');
        if *byte == b';' {
            if ended {
                tally = tally.saturating_add(number);
            } else if lines >= 3 {
                schedule = schedule.saturating_add(number);
            }
            lines = lines.saturating_add(1);
        }
        number = if byte.is_ascii_digit() {
            number
                .wrapping_mul(10)
                .wrapping_add(u32::from(byte.wrapping_sub(b'0')))
        } else {
            0
        };
    }
    (schedule, tally)
}

/// The number behind the last place at which these bytes stand in a report, or 0.
fn tally_of(report: &[u8], name: &[u8]) -> u32 {
    let mut number = 0u32;
    let mut rest = report;
    for _ in 0..report.len() {
        if let Some(behind) = rest.strip_prefix(name) {
            number = number_at(behind);
        }
        rest = rest.split_first().map_or(rest, |(_, more)| more);
    }
    number
}

/// The number in decimal with which these bytes begin.
fn number_at(bytes: &[u8]) -> u32 {
    let mut number = 0u32;
    for byte in bytes {
        if !byte.is_ascii_digit() {
            break;
        }
        number = number
            .wrapping_mul(10)
            .wrapping_add(u32::from(byte.wrapping_sub(b'0')));
    }
    number
}

/// Whether a report is that of 10 in 14 moves by another schedule than one worker's, in which each of two workers has a move for each of
/// its pieces at least, and nobody else has any. (In `p` each piece behind the fork has all moves of its ticket, so that both, in their
/// order, may be the one worker's schedule.)
fn is_shared(seen: &[u8], gate: &Meeting) -> bool {
    let first = u64::from(tally_of(seen, b"worker 0 "));
    let second = u64::from(tally_of(seen, b"worker 1 "));
    seen.starts_with(b"0 value 10;moves 14;schedule 2;")
        && !seen.starts_with(b"0 value 10;moves 14;schedule 2;0 4;1 3;2 3;3 4;end;")
        && sums(seen) == (14, 14)
        && first + second == 14
        && first >= gate.calls_of_first().max(1)
        && second >= gate.calls_of_second().max(1)
}

#[test]
fn two_workers_of_goi_hold_pieces_at_once(rt: HostRuntime) -> Result<(), Fail> {
    let gate = Meeting::new();
    let words = "goi run q --workers 2 --schedule --tally";
    let seen = left(&rt, rt.alloc(), words, &gate)?;
    assert!(rt; is_shared(&seen, &gate));
    assert!(rt; gate.have_met());
    Ok(())
}
