//! The run of a table, counted up to the answer or a budget.

ghost use Rattle.std.specs.Prelude.{◌≡◌, ◌⊎◌, ◌<◌, ◌+◌, ◌^◌, ℕ, false, ◌&&◌, IfOk, OnOk, map, min, nat_le};
ghost use Rattle.joined_module.specs.Module.{ModuleTable};
ghost use Rattle.joined_module.specs.Machine.{row_start};
ghost use Rattle.joined_numbers.specs.At.{number_at};
ghost use Rattle.joined_data.specs.Views.{row_view};
ghost use Rattle.joined_needs.specs.Views.{held_of, timed_of, needs_table};
ghost use Rattle.joined_needs.specs.Edges.{blank};
ghost use Rattle.joined_needs.specs.Told.{GoesOn, EndsSo, NeedsTold, most_edges};
ghost use Rattle.joined_needs.specs.Counting.{IsCounted, goes_on};

use crate::edges::an_edge;
use crate::find::find_row;
use crate::walk::{Held, Walk};
use joined_data::{Row, Sees, Site};
use pcf_values::Val;
use std::alloc::{AllocError, Global};

/// How a run ends.
#[derive(Clone, Copy)]
pub enum Ending {
    /// With this value.
    Answered(Val),
    /// There is no row for what is seen.
    NoRow,
    /// The budget was spent.
    Beyond,
}

/// What a table's circuit needs for its run.
#[derive(Clone, Copy)]
pub struct Needs {
    /// How the run ends.
    pub ending: Ending,
    /// How many moves were made, up to the budget.
    pub moves: u32,
    /// How many edges there were behind that of the reset: those up to `done`, where it answers.
    pub cycles: u64,
    /// The most cells that are in use at once.
    pub cells: u64,
    /// The most forks that are open at once.
    pub forks: u64,
}

/// A run up to here, and what was counted.
#[derive(Drop)]
pub(crate) struct Counting<'a> {
    pub(crate) walk: Walk<'a>,
    pub(crate) cycles: u64,
    pub(crate) cells: u64,
    pub(crate) forks: u64,
}

/// The circuit at its reset.
fn at_reset(alloc: Global, start: u64) -> Held
    ensures { held_of result ≡ row_start start blank }
{
    Held {
        key: start,
        site: Site::Nowhere,
        value: Val::Number(0),
        sigs: Vec::new(alloc),
        boxes: Vec::new(alloc),
        cells: Vec::new(alloc),
        top: 0,
        forks: Vec::new(alloc),
        ended: false,
        full: false,
        moves: 0,
    }
}

/// The run at its start.
fn begin<'a>(alloc: Global, rows: &[Row<'a>], start: u64) -> Counting<'a>
    ensures counted { (ps : ℕ → ℕ) → IsCounted ps (needs_table (map row_view rows.now) start) result }
    ensures none { result.cycles ≡ 0 }
{
    Counting {
        walk: Walk {
            held: at_reset(alloc, start),
            row: find_row(rows, start, Sees::Nothing),
            late: 0,
            seen: false,
            fresh: false,
            changed: true,
            done: false,
        },
        cycles: 0,
        cells: 0,
        forks: 0,
    }
}

/// Whether the run goes on within the budget.
fn goes_on(walk: &Walk, budget: u32) -> bool
    ensures { result ≡ goes_on budget (timed_of walk.now) }
{
    !walk.done && (!walk.held.full && (walk.held.ended || walk.held.moves < u128::from(budget)))
}

/// Makes an edge and counts it.
fn count_edge<'a>(
    alloc: Global,
    rows: &[Row<'a>],
    ports: &[u64],
    counting: &mut Counting<'a>,
) -> Result<(), AllocError>
    requires room { counting.old.cycles < 2 ^ 63 }
    requires goes { GoesOn (timed_of counting.old.walk) }
    requires few { counting.old.walk.held.ended ≡ false → counting.old.walk.held.moves < 2 ^ 64 }
    ensures counted { OnOk result ((start : ℕ) → let T = needs_table (map row_view rows.now) start in
        IsCounted (number_at ports.now) T counting.old → IsCounted (number_at ports.now) T counting.new) }
    ensures cycles { OnOk result (counting.new.cycles ≡ counting.old.cycles + 1) }
{
    an_edge(alloc, rows, ports, &mut counting.walk)?;
    counting.cycles += 1;
    counting.cells = counting.cells.max(counting.walk.held.top);
    counting.forks = counting.forks.max(counting.walk.held.forks.len() as u64);
    Ok(())
}

/// Makes edges and counts them, as long as the run goes on within the budget, and at most so many.
fn count_run<'a>(
    alloc: Global,
    rows: &[Row<'a>],
    ports: &[u64],
    counting: &mut Counting<'a>,
    budget: u32,
    most: u64,
) -> Result<(), AllocError>
    requires few { most < 2 ^ 63 }
    requires none { counting.old.cycles ≡ 0 }
    ensures counted { OnOk result ((start : ℕ) → let T = needs_table (map row_view rows.now) start in
        IsCounted (number_at ports.now) T counting.old → IsCounted (number_at ports.now) T counting.new) }
    ensures ends { OnOk result ((counting.new.cycles ≡ most) ⊎ (goes_on budget (timed_of counting.new.walk) ≡ false)) }
{
    while counting.cycles < most && goes_on(&counting.walk, budget) {
        count_edge(alloc, rows, ports, counting)?;
    }
    Ok(())
}

/// Whether its value was told within the budget.
fn is_answered(walk: &Walk, budget: u32) -> bool
    ensures { result ≡ ((timed_of walk.now).done && nat_le (timed_of walk.now).circuit.moves budget) }
{
    walk.done && walk.held.moves <= u128::from(budget)
}

/// How a run ends that goes on no more within the budget.
fn ending_of(walk: &Walk, budget: u32) -> Ending
    ensures { (n : ℕ) → (n ≡ most_edges budget) ⊎ (goes_on budget (timed_of walk.now) ≡ false) →
        EndsSo budget n (timed_of walk.now) result }
{
    if walk.held.full {
        return Ending::NoRow;
    }
    if is_answered(walk, budget) {
        return Ending::Answered(walk.held.value);
    }
    Ending::Beyond
}

/// The moves that were made, up to the budget.
fn moves_within(walk: &Walk, budget: u32) -> u32
    ensures { result ≡ min (timed_of walk.now).circuit.moves budget }
{
    if walk.held.moves < u128::from(budget) {
        walk.held.moves as u32
    } else {
        budget
    }
}

/// What is told of a run that was counted.
fn told(counting: &Counting, budget: u32) -> Needs
    ensures { (ps : ℕ → ℕ) (T : ModuleTable) → IsCounted ps T counting.now →
        (counting.now.cycles ≡ most_edges budget) ⊎ (goes_on budget (timed_of counting.now.walk) ≡ false) →
        NeedsTold ps T budget result }
{
    Needs {
        ending: ending_of(&counting.walk, budget),
        moves: moves_within(&counting.walk, budget),
        cycles: counting.cycles,
        cells: counting.cells,
        forks: counting.forks,
    }
}

/// The run of a table of joined rows from this key on, with these numbers at the ports, as its circuit makes it, until its value is told,
/// or there is no row, or the budget of moves is spent. It counts the most cells of the circuit that are in use at once, the most forks
/// that are open, and the cycles with all that rows wait for; all three are exact.
///
/// # Errors
///
/// It runs out of memory.
pub fn joined_needs(
    alloc: Global,
    rows: &[Row],
    start: u64,
    ports: &[u64],
    budget: u32,
) -> Result<Needs, AllocError>
    ensures { IfOk result (λ n. NeedsTold (number_at ports.now) (needs_table (map row_view rows.now) start) budget n) }
{
    let mut counting = begin(alloc, rows, start);
    let most = 133 * (u64::from(budget) + 1);
    count_run(alloc, rows, ports, &mut counting, budget, most)?;
    let needs = told(&counting, budget);
    drop(counting);
    Ok(needs)
}
