//! Programs: closed terms with their types.

ghost use Rattle.std.specs.Prelude.{◌≡◌, ◌≢◌, ◌↔◌, ◌<◌, ◌^◌, [], Ok, Err, IfOk, IfErr, IsOk};
ghost use Rattle.pcf_values.specs.Terms.{nat};
ghost use Rattle.pcf_values.specs.Named.{named_height};
ghost use Rattle.pcf_values.specs.Views.{named_of};
ghost use Rattle.pcf_types.specs.Checking.{type_of};
ghost use Rattle.pcf_types.specs.Numbers.{NumbersFit};
ghost use Rattle.pcf_types.specs.declared.fault.TypeFault.TheVariants.{NoMemory};

use crate::TypeFault;
use crate::infer::infer;
use crate::scope::Scope;
use pcf_values::{Named, Ty, Typed};
use std::alloc::Global;

/// The program's term with its type, or its first fault of scope or type from left to right.
///
/// The rules are those of Church's simply typed terms with numbers, products and `fix`. The nearest binder of a name binds it.
///
/// # Errors
///
/// The first fault of scope or type, with the place of the part: an offset in bytes from 0. Or it runs out of memory.
pub fn resolve_and_type(alloc: Global, program: &Named) -> Result<Typed, TypeFault>
    requires { named_height (named_of program.now) < 2 ^ 32 }
    ensures typed { IfOk result (λ p. type_of [] (named_of program.now) ≡ Ok p) }
    // Unless memory was wanting, an error is the definition's first fault.
    ensures fault { IfErr result (λ e. e ≢ NoMemory → type_of [] (named_of program.now) ≡ Err e) }
    // Each number of a program that is accepted is a value, as `law_correct` asks.
    ensures fit { IfOk result (λ p. NumbersFit (named_of program.now)) }
{
    let judged = infer(alloc, &Scope::Closed, program)?;
    let ty = judged.ty.to_ty(alloc)?;
    Ok(Typed::of(Box::into_inner(judged.term), ty))
}

/// The program isn't of type `nat`.
#[derive(Clone, Copy, Debug, PartialEq, Eq)]
pub struct NotGround;

/// Whether the program is of type `nat`, as one that is run has to be.
///
/// # Errors
///
/// `NotGround`, exactly when the type is another one.
pub fn ground(program: &Typed) -> Result<(), NotGround>
    ensures { IsOk result ↔ (program.now.1 ≡ nat) }
{
    match program.ty() {
        Ty::Nat => Ok(()),
        _ => Err(NotGround),
    }
}
