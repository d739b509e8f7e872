//! Runs of one function at many rows of numbers.

ghost use Rattle.std.specs.Prelude.{◌≡◌, ◌↔◌, ◌*◌, length, IfOk, OnOk, IsTrue};
ghost use Rattle.goi_jobs.specs.Ranges.{IsBudget};
ghost use Rattle.goi_tasks.specs.Backs.{back};
ghost use Rattle.goi_c.specs.Calls.{HasRoom};
ghost use Rattle.goi_c.specs.Giving.{IsToldBy};
ghost use Rattle.goi_c.specs.Rows.{CallsEach, IsAskedEach, OwnsEach, TellsEach, TellsRow, TellsRows};

use function_runs::{Function, compile, law_one_function};
use goi_tasks::{
    Answer, BAD_CALL, Fault, NO_MEMORY, answer_of, clear, give_fault, give_nothing, settle,
};
use pcf_values::limits::BUDGET;
use program_runs::NoRun;
use std::alloc::{AllocError, Global};

/// Runs the function of a text at each row of so many numbers, which stand one behind the other, each within a budget of moves, and tells
/// in numbers what each came to; or gives the line of the text's first fault.
#[unsafe(no_mangle)]
pub extern "C" fn goi_tell_each(
    alloc: Global,
    text: &[u8],
    arguments: u32,
    values: &[u64],
    budget: u32,
    answers: &mut [Answer],
    out: &mut [u8],
    needed: &mut usize,
) -> u32
    ensures calls { CallsEach arguments budget (length answers.old) values.now text.now answers.new
        (back result needed.new out.old out.new) }
    ensures count { length answers.new ≡ length answers.old }
    ensures own { IsAskedEach arguments budget (length answers.old) values.now →
        OwnsEach arguments text.now (back result needed.new out.old out.new) }

    // A buffer for a line has room for the line of a fault.
    ensures room { HasRoom (back result needed.new out.old out.new) }
{
    law_one_function();
    if is_asked(arguments, budget, answers.len(), values) {
        run_each(alloc, text, arguments, values, budget, answers, out, needed)
    } else {
        clear(answers);
        give_nothing(needed, BAD_CALL)
    }
}

/// Whether the numbers of a call ask for something.
fn is_asked(arguments: u32, budget: u32, rows: usize, values: &[u64]) -> bool
    ensures { IsTrue result ↔ IsAskedEach arguments budget rows values.now }
{
    1 <= budget && budget <= BUDGET && are_rows(arguments, rows, values.len())
}

/// Runs the function of a text at each row, or gives the line of the text's first fault.
fn run_each(
    alloc: Global,
    text: &[u8],
    arguments: u32,
    values: &[u64],
    budget: u32,
    answers: &mut [Answer],
    out: &mut [u8],
    needed: &mut usize,
) -> u32
    requires budget { IsBudget budget }
    requires many { length values.now ≡ arguments * length answers.old }
    ensures tells { TellsEach arguments budget values.now text.now answers.new (back result needed.new out.old out.new) }
    ensures count { length answers.new ≡ length answers.old }
{
    match compile(alloc, text, arguments as usize) {
        Ok(mut function) => {
            let status = tell_function(alloc, &mut function, values, budget, answers);
            drop(function);
            give_nothing(needed, status)
        }
        Err(NoRun::Memory) => {
            clear(answers);
            give_nothing(needed, NO_MEMORY)
        }
        Err(NoRun::Fault(fault)) => {
            clear(answers);
            give_fault(alloc, Fault::Program(fault), out, needed)
        }
    }
}

/// Whether so many numbers are so many rows of so many each.
fn are_rows(each: u32, rows: usize, numbers: usize) -> bool
    ensures { IsTrue result ↔ (numbers ≡ each * rows) }
{
    match (each as usize).checked_mul(rows) {
        Some(all) => all == numbers,
        None => false,
    }
}

/// Tells what the function comes to at each row, with the status of all; there are no answers where there is no memory.
fn tell_function(
    alloc: Global,
    function: &mut Function,
    values: &[u64],
    budget: u32,
    answers: &mut [Answer],
) -> u32
    requires many { length values.now ≡ function.old.1 * length answers.old }
    requires budget { IsBudget budget }
    ensures told { IsToldBy function.old budget values.now result answers.new }
    ensures count { length answers.new ≡ length answers.old }
{
    let told = tell_rows(alloc, function, values, budget, answers);
    settle(told, answers)
}

/// Tells what the function comes to at each row.
fn tell_rows(
    alloc: Global,
    function: &mut Function,
    values: &[u64],
    budget: u32,
    answers: &mut [Answer],
) -> Result<(), AllocError>
    requires many { length values.now ≡ function.old.1 * length answers.old }
    requires budget { IsBudget budget }
    ensures rows { OnOk result (TellsRows function.old.0 function.old.1 budget values.now answers.new) }
    ensures count { length answers.new ≡ length answers.old }
{
    let each = function.arguments() as usize;
    let mut rest = values;
    for i in 0..answers.len() {
        let (row, behind) = rest.split_at(each);
        answers[i] = tell_row(alloc, function, row, budget)?;
        rest = behind;
    }
    Ok(())
}

/// Tells what the function comes to at these numbers.
fn tell_row(
    alloc: Global,
    function: &mut Function,
    row: &[u64],
    budget: u32,
) -> Result<Answer, AllocError>
    requires many { length row.now ≡ function.old.1 }
    requires budget { IsBudget budget }
    ensures told { IfOk result (λ a. TellsRow function.old.0 budget row.now a) }
    ensures kept { function.new ≡ function.old }
{
    let ended = function.call(alloc, row, budget)?;
    let answer = answer_of(ended.answer, ended.log.len());
    drop(ended);
    Ok(answer)
}
