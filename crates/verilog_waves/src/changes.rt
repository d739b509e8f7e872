//! The lines of values: all of them, and those that changed.

ghost use Rattle.std.specs.Prelude.{◌≡◌, ◌++◌, codes, map, IfOk, OnOk};
ghost use Rattle.verilog_tree.specs.Names.{text_of};
ghost use Rattle.verilog_run.specs.Held.{held};
ghost use Rattle.verilog_waves.specs.Dump.{change_line, change_text, clock_at, code, edge_text, start_text, value_lines, value_text};
ghost use Rattle.verilog_waves.specs.Views.{shown_of};

use crate::shown::Shown;
use crate::words::{push_code, push_number, push_value};
use std::alloc::{AllocError, Global};
use verilog_run::{Contents, same_name};
use wide_numbers::Number;

/// The number of a name, where the clock is as told.
fn number(alloc: Global, store: &Contents, clock: u128, name: &[u8]) -> Result<Number, AllocError>
    ensures { IfOk result (λ n. n ≡ (clock_at clock (held store.now)).vec (text_of name.now)) }
{
    if same_name(b"clk", name) {
        return Number::of(alloc, clock);
    }
    store.vector(alloc, name)
}

/// Appends the line of a number.
fn push_number_line(text: &mut Vec<u8>, v: &Shown<'_>, n: &Number) -> Result<(), AllocError>
    ensures { OnOk result (text.new.items ≡ text.old.items ++ (value_text v.now.bits n.now ++ (code v.now.place ++ codes "\n"))) }
{
    push_value(text, v.bits, n)?;
    push_code(text, v.place)?;
    text.extend_from_slice(b"\n")
}

/// Appends the lines of all values.
fn push_values(
    alloc: Global,
    text: &mut Vec<u8>,
    names: &[Shown<'_>],
    store: &Contents,
    clock: u128,
) -> Result<(), AllocError>
    ensures { OnOk result (text.new.items ≡ text.old.items ++ value_lines (map shown_of names.now) (clock_at clock (held store.now))) }
{
    for v in names {
        let n = number(alloc, store, clock, v.name)?;
        push_number_line(text, v, &n)?;
    }
    Ok(())
}

/// Appends the line of a name, where its number isn't what it was.
fn push_change(
    alloc: Global,
    text: &mut Vec<u8>,
    v: &Shown<'_>,
    old: &Contents,
    old_clock: u128,
    new: &Contents,
    new_clock: u128,
) -> Result<(), AllocError>
    ensures { OnOk result (text.new.items ≡ text.old.items
        ++ change_line (shown_of v.now) (clock_at old_clock (held old.now)) (clock_at new_clock (held new.now))) }
{
    let m = number(alloc, old, old_clock, v.name)?;
    let n = number(alloc, new, new_clock, v.name)?;
    if m.is_same(&n) {
        return Ok(());
    }
    push_number_line(text, v, &n)
}

/// Appends a time, and the lines of what changes at it.
fn push_changes(
    alloc: Global,
    text: &mut Vec<u8>,
    names: &[Shown<'_>],
    time: u128,
    old: &Contents,
    old_clock: u128,
    new: &Contents,
    new_clock: u128,
) -> Result<(), AllocError>
    ensures { OnOk result (text.new.items ≡ text.old.items
        ++ change_text (map shown_of names.now) time (clock_at old_clock (held old.now)) (clock_at new_clock (held new.now))) }
{
    text.extend_from_slice(b"#")?;
    push_number(text, time)?;
    text.extend_from_slice(b"\n")?;
    for v in names {
        push_change(alloc, text, v, old, old_clock, new, new_clock)?;
    }
    Ok(())
}

/// Appends an edge: the clock goes up, and down. What the module holds is told as it is before the edge, behind it, and before the next.
pub(crate) fn push_edge(
    alloc: Global,
    text: &mut Vec<u8>,
    names: &[Shown<'_>],
    k: u64,
    old: &Contents,
    up: &Contents,
    new: &Contents,
) -> Result<(), AllocError>
    ensures { OnOk result (text.new.items ≡ text.old.items
        ++ edge_text (map shown_of names.now) k (held old.now) (held up.now) (held new.now)) }
{
    let start = 10 * k as u128;
    push_changes(alloc, text, names, start + 5, old, 0, up, 1)?;
    push_changes(alloc, text, names, start + 10, up, 1, new, 0)
}

/// Appends what all names hold at time 0.
pub(crate) fn push_start(
    alloc: Global,
    text: &mut Vec<u8>,
    names: &[Shown<'_>],
    store: &Contents,
) -> Result<(), AllocError>
    ensures { OnOk result (text.new.items ≡ text.old.items ++ start_text (map shown_of names.now) (held store.now)) }
{
    text.extend_from_slice(b"#0\n$dumpvars\n")?;
    push_values(alloc, text, names, store, 0)?;
    text.extend_from_slice(b"$end\n")?;
    Ok(())
}
