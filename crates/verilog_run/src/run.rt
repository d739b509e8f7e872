//! What statements of blocks that settle do.

ghost use Rattle.std.specs.Prelude.{◌≡◌, OnOk};
ghost use Rattle.verilog_tree.specs.Meaning.{run as run_of};
ghost use Rattle.verilog_tree.specs.Meaning.{run_arms as run_arms_of};
ghost use Rattle.verilog_tree.specs.Meaning.{chosen, holds as holds_in};
ghost use Rattle.verilog_tree.specs.Tree.{cases};
ghost use Rattle.verilog_tree.specs.Views.{arms_of, expr_of, stmt_of};
ghost use Rattle.verilog_run.specs.Held.{held};
ghost use Rattle.verilog_run.specs.Scopes.{scope_of};

use crate::assign::assign;
use crate::contents::Contents;
use crate::operate::is_true;
use crate::scene::Scene;
use crate::value::{labelled, own, value};
use crate::widths::widest_case;
use std::alloc::AllocError;
use verilog_tree::{Cases, Expression, Statement};
use wide_numbers::Number;

/// The arms of a case, of which the first that has the number is taken.
#[cycle(run)]
fn run_arms(
    scene: &Scene,
    store: &mut Contents,
    w: &Number,
    n: &Number,
    arms: &Cases<'_>,
) -> Result<(), AllocError>
    ensures { OnOk result (held store.new ≡ run_arms_of (scope_of scene.now) w.now n.now (arms_of arms.now) (held store.old)) }
{
    match arms {
        Cases::Otherwise(s) => {
            run(scene, store, s)?;
            Ok(())
        }
        Cases::Arm(labels, s, _, rest) => {
            let taken = labelled(scene, store, w, n, labels)?;
            if taken {
                run(scene, store, s)?;
                return Ok(());
            }
            run_arms(scene, store, w, n, rest)?;
            Ok(())
        }
    }
}

/// One statement after the other.
#[cycle(run)]
fn run_both(
    scene: &Scene,
    store: &mut Contents,
    s: &Statement<'_>,
    t: &Statement<'_>,
) -> Result<(), AllocError>
    ensures { OnOk result (held store.new
        ≡ run_of (scope_of scene.now) (stmt_of t.now) (run_of (scope_of scene.now) (stmt_of s.now) (held store.old))) }
{
    run(scene, store, s)?;
    run(scene, store, t)?;
    Ok(())
}

/// One statement or the other.
#[cycle(run)]
fn run_one(
    scene: &Scene,
    store: &mut Contents,
    e: &Expression<'_>,
    s: &Statement<'_>,
    t: &Statement<'_>,
) -> Result<(), AllocError>
    ensures { OnOk result (held store.new ≡ chosen (holds_in (scope_of scene.now) (held store.old) (expr_of e.now))
        (run_of (scope_of scene.now) (stmt_of s.now) (held store.old))
        (run_of (scope_of scene.now) (stmt_of t.now) (held store.old))) }
{
    let n = own(scene, store, e)?;
    if is_true(&n) {
        run(scene, store, s)?;
        return Ok(());
    }
    run(scene, store, t)?;
    Ok(())
}

/// The arm of a case that an expression takes.
#[cycle(run)]
fn run_case(
    scene: &Scene,
    store: &mut Contents,
    e: &Expression<'_>,
    arms: &Cases<'_>,
) -> Result<(), AllocError>
    ensures { OnOk result (held store.new ≡ run_of (scope_of scene.now) (cases (expr_of e.now) (arms_of arms.now)) (held store.old)) }
{
    let w = widest_case(scene, e, arms)?;
    let n = value(scene, store, &w, e)?;
    run_arms(scene, store, &w, &n, arms)?;
    Ok(())
}

/// A statement of a block that settles.
#[cycle(run)]
pub(crate) fn run(scene: &Scene, store: &mut Contents, s: &Statement<'_>) -> Result<(), AllocError>
    ensures { OnOk result (held store.new ≡ run_of (scope_of scene.now) (stmt_of s.now) (held store.old)) }
{
    match s {
        Statement::Skip => Ok(()),
        Statement::Put(place, e) => assign(scene, store, place, e),
        Statement::Seq(s, t) => run_both(scene, store, s, t),
        Statement::Branch(e, s, t) => run_one(scene, store, e, s, t),
        Statement::Case(e, arms) => run_case(scene, store, e, arms),
    }
}
