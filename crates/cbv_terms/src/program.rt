//! From a program to the one that runs it by value.

ghost use Rattle.std.specs.Prelude.{◌≡◌, ◌≢◌, ◌+◌, ◌*◌, ◌<◌, ◌≤◌, [], Ok, IfOk, IfErr};
ghost use Rattle.pcf_values.specs.Terms.{nat, size, height};
ghost use Rattle.pcf_values.specs.Views.{named_of};
ghost use Rattle.pcf_types.specs.Checking.{type_of};
ghost use Rattle.cbv_terms.specs.Translation.{translated};
ghost use Rattle.cbv_terms.specs.Accepted.{Accepted};
ghost use Rattle.cbv_terms.specs.Faults.{IsFaultless, IsFirstFault};
ghost use Rattle.cbv_terms.specs.declared.fault.ByValueFault.TheVariants.{NoMemory};

use crate::ByValueFault;
use crate::refusal::refusal;
use crate::translate::translate_program;
use pcf_values::{Named, Ty, Typed};
use std::alloc::Global;

/// The program that means by name what this one means by value (`law_by_value`), or this one's first fault.
///
/// `typed` is the term of `program`, with its type. The answer is closed and of type `nat`. It is made in one walk over the term, and its
/// types are written as often as the translation has them.
///
/// # Errors
///
/// The first fault of a program that has no translation: its height before the others, then the least place. Or it runs out of memory.
pub fn by_value(alloc: Global, program: &Named, typed: &Typed) -> Result<Typed, ByValueFault>
    requires typed { type_of [] (named_of program.now) ≡ Ok typed.now }
    requires ground { typed.now.1 ≡ nat }
    ensures translated { IfOk result (λ p. p ≡ (translated typed.now.0, nat)) }
    ensures accepted { IfOk result (λ p. Accepted typed.now.0) }
    ensures faultless { IfOk result (λ p. IsFaultless (named_of program.now)) }
    ensures size { IfOk result (λ p. size p.0 ≤ 10 * size typed.now.0 + 3) }
    ensures height { IfOk result (λ p. height p.0 < 2600) }
    // Unless memory was wanting, an error is the program's first fault.
    ensures fault { IfErr result (λ e. e ≢ NoMemory → IsFirstFault (named_of program.now) e) }
{
    match refusal(program) {
        Some(fault) => Err(fault),
        None => {
            let term = translate_program(alloc, typed.term())?;
            Ok(Typed::of(term, Ty::Nat))
        }
    }
}
