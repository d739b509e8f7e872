//! From the text of a function of numbers to its net.

ghost use Rattle.std.specs.Prelude.{◌≡◌, ◌≤◌, ◌<◌, ◌^◌, ℕ, [], length, replicate, Ok, IfOk, IfErr};
ghost use Rattle.pcf_values.specs.Most.{most_nodes};
ghost use Rattle.pcf_values.specs.Terms.{size, height};
ghost use Rattle.pcf_values.specs.Named.{named_height};
ghost use Rattle.pcf_values.specs.NamedSize.{named_size};
ghost use Rattle.pcf_values.specs.Views.{named_of};
ghost use Rattle.net_build.specs.NetOf.{net_of};
ghost use Rattle.open_net_laws.specs.Applied.{applied, numeric};
ghost use Rattle.program_runs.specs.NoRuns.{NoRunFor};
ghost use Rattle.function_runs.specs.Functions.{most_arguments, CompilesText, CompilesTree, FaultyFunction, FaultyTree, Takes};
ghost use Rattle.function_runs.specs.Functions.{FaultyAny};
ghost use Rattle.function_runs.specs.Misfit.{IsMisfit};

use crate::applying::{arguments_of, at_zeros, fits};
use crate::function::Function;
use net_build::{Net, build, law_net_size};
use open_net_laws::law_applied;
use pcf_reader::{law_bounded, read_program};
use pcf_types::{law_keeps_size, resolve_and_type};
use pcf_values::{Named, Typed};
use program_runs::{NoRun, ProgramFault};
use std::alloc::{AllocError, Global};
use std::snapshot::Snapshot;

/// The function of a text: a closed term that takes so many numbers, of which there are at most `MOST_ARGUMENTS`.
///
/// # Errors
///
/// The first fault of the text, exactly when it has one: it isn't read, it isn't typed, or its type isn't `nat -> .. -> nat` of so many
/// arguments, or they are too many (`NotGround`). Or it runs out of memory.
pub fn compile(alloc: Global, bytes: &[u8], arguments: usize) -> Result<Function, NoRun>
    ensures function { IfOk result (λ f. CompilesText bytes.now arguments f) }
    ensures fault { IfErr result (λ e. NoRunFor (FaultyFunction arguments bytes.now) e) }
{
    law_bounded();
    let tree = read_program(alloc, bytes)?;
    let function = compile_tree(alloc, &tree, arguments);
    drop(tree);
    function
}

/// The function of a text, of as many numbers as its type says: none for a program of type `nat`, and at most `MOST_ARGUMENTS`.
///
/// # Errors
///
/// The first fault of the text, exactly when it has one: it isn't read, it isn't typed, or its type isn't `nat -> .. -> nat`, or that of
/// too many arguments (`NotGround`). Or it runs out of memory.
pub fn compile_any(alloc: Global, bytes: &[u8]) -> Result<Function, NoRun>
    ensures function { IfOk result (λ f. CompilesText bytes.now f.1 f) }
    ensures fault { IfErr result (λ e. NoRunFor (FaultyAny bytes.now) e) }
{
    law_bounded();
    let tree = read_program(alloc, bytes)?;
    let function = compile_any_tree(alloc, &tree);
    drop(tree);
    function
}

/// The function of a tree, of as many numbers as its type says.
fn compile_any_tree(alloc: Global, tree: &Named) -> Result<Function, NoRun>
    requires size { named_size (named_of tree.now) ≤ most_nodes }
    requires height { named_height (named_of tree.now) ≤ 2600 }
    ensures function { IfOk result (λ f. CompilesTree (named_of tree.now) f.1 f) }
    ensures fault { IfErr result (λ e. NoRunFor (λ f. (n : ℕ) → FaultyTree n (named_of tree.now) f) e) }
{
    law_keeps_size();
    let program = resolve_and_type(alloc, tree)?;
    let arguments = arguments_of(program.ty());
    compile_program(alloc, program, arguments)
}

/// The function of a tree.
fn compile_tree(alloc: Global, tree: &Named, arguments: usize) -> Result<Function, NoRun>
    requires size { named_size (named_of tree.now) ≤ most_nodes }
    requires height { named_height (named_of tree.now) ≤ 2600 }
    ensures function { IfOk result (λ f. CompilesTree (named_of tree.now) arguments f) }
    ensures fault { IfErr result (λ e. NoRunFor (FaultyTree arguments (named_of tree.now)) e) }
{
    law_keeps_size();
    let program = resolve_and_type(alloc, tree)?;
    compile_program(alloc, program, arguments)
}

/// The function of a program, which has to take so many numbers.
fn compile_program(alloc: Global, program: Typed, arguments: usize) -> Result<Function, NoRun>
    requires size { size program.0 ≤ most_nodes }
    requires height { height program.0 ≤ 2600 }
    ensures takes { IfOk result (λ f. Takes arguments program.1) }
    ensures function { IfOk result (λ f. f ≡ (program.0, arguments)) }
    ensures misfit { IfErr result (λ e. NoRunFor (IsMisfit arguments program.1) e) }
{
    if !fits(program.ty(), arguments) {
        drop(program);
        return Err(NoRun::Fault(ProgramFault::NotGround));
    }
    Ok(compile_function(alloc, program, arguments as u32)?)
}

/// The function of a program that takes so many numbers.
fn compile_function(alloc: Global, program: Typed, arguments: u32) -> Result<Function, AllocError>
    requires few { arguments ≤ most_arguments }
    requires size { size program.0 ≤ most_nodes }
    requires height { height program.0 ≤ 2600 }
    requires takes { program.1 ≡ numeric arguments }
    ensures { IfOk result (λ f. f ≡ (program.0, arguments)) }
{
    let kept = Snapshot::of(&program);
    program.term();
    let net = net_at_zeros(alloc, program, arguments)?;
    Ok(Function::of(kept, net, arguments))
}

/// The net of a program that takes so many numbers, at zeros.
fn net_at_zeros(alloc: Global, program: Typed, arguments: u32) -> Result<Net, AllocError>
    requires few { arguments ≤ most_arguments }
    requires size { size program.0 ≤ most_nodes }
    requires height { height program.0 ≤ 2600 }
    requires takes { program.1 ≡ numeric arguments }
    ensures net { IfOk result (λ net. net ≡ net_of (applied program.0 (replicate arguments 0))) }
    ensures few { IfOk result (λ net. length net.nodes < 2 ^ 32) }
{
    law_applied();
    law_net_size();
    let applied = at_zeros(alloc, program, arguments)?;
    let net = build(alloc, &applied);
    drop(applied);
    net
}
