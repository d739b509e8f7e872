//! From the text of a program to the net on which it runs.

ghost use Rattle.std.specs.Prelude.{◌≡◌, ◌<◌, ◌≤◌, ◌+◌, ◌*◌, [], ◌↔◌, Ok, IsTrue, IfOk, IfErr};
ghost use Rattle.pcf_values.specs.Most.{most_nodes};
ghost use Rattle.pcf_values.specs.Terms.{nat, size, height};
ghost use Rattle.pcf_values.specs.Typing.{HasType};
ghost use Rattle.pcf_values.specs.Named.{named_height};
ghost use Rattle.pcf_values.specs.NamedSize.{named_size};
ghost use Rattle.pcf_values.specs.Views.{named_of};
ghost use Rattle.pcf_types.specs.Checking.{type_of};
ghost use Rattle.net_build.specs.NetOf.{net_of};
ghost use Rattle.program_runs.specs.declared.calling.Calling.TheVariants.{ByValue};
ghost use Rattle.program_runs.specs.Nets.{IsNetFor, IsNetOfTree, IsRunner};
ghost use Rattle.program_runs.specs.NoRuns.{NoRunFor};
ghost use Rattle.program_runs.specs.Programs.{strict_number, wanted_by_run, FaultyProgram, FaultyTree};

use crate::calling::Calling;
use crate::fault::ProgramFault;
use crate::laws::law_tells;
use crate::no_run::NoRun;
use adequacy_laws::law_never_stuck;
use cbv_terms::{by_value, law_by_value, law_translated};
use net_build::{Net, build, law_net_size};
use pcf_reader::{law_bounded, read_program};
use pcf_types::{ground, law_keeps_size, resolve_and_type};
use pcf_values::{Named, Typed};
use std::alloc::{AllocError, Global};

/// The net on which a text's program runs, by name or by value: its own, or that of its translation. It runs, and whatever moves are made
/// on it say what the program means.
///
/// # Errors
///
/// The first fault of the text, exactly when it has one: it isn't read, it isn't typed, its type isn't `nat`, or it runs by value and has
/// no translation. Or it runs out of memory.
pub fn net_for(alloc: Global, bytes: &[u8], calling: Calling) -> Result<Net, NoRun>
    ensures net { IfOk result (λ net. IsNetFor calling bytes.now net) }
    ensures fault { IfErr result (λ e. NoRunFor (FaultyProgram (wanted_by_run calling) bytes.now) e) }
{
    law_bounded();
    let tree = read_program(alloc, bytes)?;
    let net = net_of_tree(alloc, &tree, calling);
    drop(tree);
    net
}

/// The net on which a tree's program runs.
fn net_of_tree(alloc: Global, tree: &Named, calling: Calling) -> Result<Net, NoRun>
    requires size { named_size (named_of tree.now) ≤ most_nodes }
    requires height { named_height (named_of tree.now) ≤ 2600 }
    ensures net { IfOk result (λ net. IsNetOfTree calling (named_of tree.now) net) }
    ensures fault { IfErr result (λ e. NoRunFor (FaultyTree (wanted_by_run calling) (named_of tree.now)) e) }
{
    law_never_stuck();
    law_tells();
    let runner = runner_of(alloc, tree, calling)?;
    let net = net_of(alloc, &runner);
    drop(runner);
    Ok(net?)
}

/// The program that runs for a tree's: itself, or its translation.
fn runner_of(alloc: Global, tree: &Named, calling: Calling) -> Result<Typed, NoRun>
    requires size { named_size (named_of tree.now) ≤ most_nodes }
    requires height { named_height (named_of tree.now) ≤ 2600 }
    ensures runner { IfOk result (λ p. IsRunner calling (named_of tree.now) p) }
    ensures size { IfOk result (λ p. size p.0 ≤ 10 * most_nodes + 3) }
    ensures height { IfOk result (λ p. height p.0 ≤ 2600) }
    ensures fault { IfErr result (λ e. NoRunFor (FaultyTree (wanted_by_run calling) (named_of tree.now)) e) }
{
    let program = number_of(alloc, tree, calling)?;
    match calling {
        Calling::ByName => Ok(program),
        Calling::ByValue => {
            let translated = translate(alloc, tree, &program);
            drop(program);
            translated
        }
    }
}

/// The program of a tree, which has to be a number.
fn number_of(alloc: Global, tree: &Named, calling: Calling) -> Result<Typed, NoRun>
    requires size { named_size (named_of tree.now) ≤ most_nodes }
    requires height { named_height (named_of tree.now) ≤ 2600 }
    ensures accepted { IfOk result (λ p. type_of [] (named_of tree.now) ≡ Ok p) }
    ensures ground { IfOk result (λ p. p.1 ≡ nat) }
    ensures typed { IfOk result (λ p. HasType [] p.0 nat) }
    ensures size { IfOk result (λ p. size p.0 ≤ most_nodes) }
    ensures height { IfOk result (λ p. height p.0 ≤ 2600) }
    ensures fault { IfErr result (λ e. NoRunFor (FaultyTree (wanted_by_run calling) (named_of tree.now)) e) }
{
    law_keeps_size();
    let program = resolve_and_type(alloc, tree)?;
    if !is_ground(&program) {
        drop(program);
        return Err(NoRun::Fault(ProgramFault::NotGround));
    }
    Ok(program)
}

/// The program that runs a tree's program by value.
fn translate(alloc: Global, tree: &Named, program: &Typed) -> Result<Typed, NoRun>
    requires accepted { type_of [] (named_of tree.now) ≡ Ok program.now }
    requires ground { program.now.1 ≡ nat }
    requires typed { HasType [] program.now.0 nat }
    ensures runner { IfOk result (λ p. IsRunner ByValue (named_of tree.now) p) }
    ensures size { IfOk result (λ p. size p.0 ≤ 10 * size program.now.0 + 3) }
    ensures height { IfOk result (λ p. height p.0 < 2600) }
    ensures fault { IfErr result (λ e. NoRunFor (FaultyTree strict_number (named_of tree.now)) e) }
{
    law_translated();
    law_by_value();
    Ok(by_value(alloc, tree, program)?)
}

/// Whether a program's type is `nat`.
fn is_ground(program: &Typed) -> bool
    ensures typed { IsTrue result → HasType [] program.now.0 nat }
    ensures ground { IsTrue result ↔ (program.now.1 ≡ nat) }
{
    let _ = program.term();
    ground(program).is_ok()
}

/// The net of a ground program, or of a translated one.
fn net_of(alloc: Global, program: &Typed) -> Result<Net, AllocError>
    requires ground { program.now.1 ≡ nat }
    requires size { size program.now.0 ≤ 10 * most_nodes + 3 }
    requires height { height program.now.0 ≤ 2600 }
    ensures { IfOk result (λ net. net ≡ net_of program.now.0) }
{
    law_net_size();
    build(alloc, program)
}
