//! The answers of many rows.

ghost use Rattle.std.specs.Prelude.{◌≡◌, length, OnOk, OnErr};
ghost use Rattle.goi_tasks.specs.Numbers.{TellsNone, rows_status};

use crate::answer::{Answer, no_answer};
use crate::giving::NO_MEMORY;
use std::alloc::AllocError;

/// The status of what came of all rows, which stay as they are; or that of no memory, and then there are no answers.
pub fn settle(told: Result<(), AllocError>, rows: &mut [Answer]) -> u32
    ensures told { OnOk told ((rows.new ≡ rows.old) × (result ≡ rows_status rows.old)) }
    ensures no_memory { OnErr told (TellsNone rows.new × (result ≡ 6)) }
    ensures count { length rows.new ≡ length rows.old }
{
    match told {
        Ok(()) => status_of_rows(rows),
        Err(_) => {
            clear(rows);
            NO_MEMORY
        }
    }
}

/// The status of answers: 0 where each has a value, and else 5.
fn status_of_rows(answers: &[Answer]) -> u32
    ensures { result ≡ rows_status answers.now }
{
    for i in 0..answers.len() {
        if answers[i].kind == 0 {
            return 5;
        }
    }
    0
}

/// Puts no answer for each.
pub fn clear(answers: &mut [Answer])
    ensures none { TellsNone answers.new }
    ensures count { length answers.new ≡ length answers.old }
{
    for i in 0..answers.len() {
        answers[i] = no_answer();
    }
}
