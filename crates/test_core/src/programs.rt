//! Nets of programs, from their texts.

ghost use Rattle.std.specs.Prelude.{◌≡◌, ◌≤◌, [], IfOk, IsTrue};
ghost use Rattle.pcf_values.specs.Terms.{nat, size, height};
ghost use Rattle.pcf_values.specs.Named.{named_height};
ghost use Rattle.pcf_values.specs.NamedSize.{named_size};
ghost use Rattle.pcf_values.specs.Views.{named_of};
ghost use Rattle.pcf_values.specs.Typing.{HasType};
ghost use Rattle.interleave_laws.specs.Runs.{Runs};

use adequacy_laws::law_never_stuck;
use net_build::{Net, build, law_net_size};
use pcf_reader::{law_bounded, read_program};
use pcf_types::{ground, law_keeps_size, resolve_and_type};
use pcf_values::{Named, Typed};
use std::alloc::{AllocError, Global};

/// The tree of a text. A text without one is answered with want of memory, which fails the test; so are the other faults here.
fn tree(alloc: Global, text: &str) -> Result<Named, AllocError>
    ensures size { IfOk result (λ t. named_size (named_of t) ≤ 32768) }
    ensures height { IfOk result (λ t. named_height (named_of t) ≤ 2504) }
{
    law_bounded();
    match read_program(alloc, text.as_bytes()) {
        Ok(tree) => Ok(tree),
        Err(_) => Err(AllocError),
    }
}

/// The program of a tree.
fn program(alloc: Global, tree: &Named) -> Result<Typed, AllocError>
    requires low { named_height (named_of tree.now) ≤ 2504 }
    requires small { named_size (named_of tree.now) ≤ 32768 }
    ensures size { IfOk result (λ p. size p.0 ≤ 32768) }
    ensures height { IfOk result (λ p. height p.0 ≤ 2504) }
{
    law_keeps_size();
    match resolve_and_type(alloc, tree) {
        Ok(program) => Ok(program),
        Err(_) => Err(AllocError),
    }
}

/// Whether a program is of type `nat`.
fn is_ground(program: &Typed) -> bool
    ensures ground { IsTrue result → program.now.1 ≡ nat }
    ensures typed { HasType [] program.now.0 program.now.1 }
{
    program.term();
    ground(program).is_ok()
}

/// The net of a program of type `nat`.
fn built(alloc: Global, program: &Typed) -> Result<Net, AllocError>
    requires size { size program.now.0 ≤ 32768 }
    requires height { height program.now.0 ≤ 2504 }
    ensures { IfOk result (λ net. Runs net) }
{
    law_never_stuck();
    law_net_size();
    if !is_ground(program) {
        return Err(AllocError);
    }
    build(alloc, program)
}

/// The net of a program's text. It runs: no order of moves leaves it without a move before its answer.
pub(crate) fn net_of(alloc: Global, text: &str) -> Result<Net, AllocError>
    ensures { IfOk result (λ net. Runs net) }
{
    let tree = tree(alloc, text)?;
    let program = program(alloc, &tree);
    drop(tree);
    let program = program?;
    let net = built(alloc, &program);
    drop(program);
    net
}
