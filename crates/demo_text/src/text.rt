//! The text of the generated program, made from the inside out.

ghost use Rattle.std.specs.Prelude.{◌≡◌, ◌≤◌, IfOk, string_bytes};
ghost use Rattle.pcf_values.specs.Most.{most_demo};
ghost use Rattle.demo_text.specs.Text.{demo_text, doubled, program_of, sum_text};

use std::alloc::{AllocError, Global};

/// The text of the generated program of a number.
///
/// # Errors
///
/// `AllocError` when memory runs out.
pub fn demo_text(alloc: Global, n: u32) -> Result<Vec<u8>, AllocError>
    requires { n ≤ most_demo }
    ensures { IfOk result (λ v. v.items ≡ demo_text n) }
{
    let sum = sum_text(alloc, n)?;
    let text = whole(alloc, sum.as_str())?;
    Ok(text.into_bytes())
}

/// The program around this sum.
fn whole(alloc: Global, sum: &str) -> Result<String, AllocError>
    ensures { IfOk result (λ text. string_bytes text ≡ program_of sum.now) }
{
    format!(in alloc; "(fun d:nat->nat. {sum}) (fun x:nat. x + x)\n")
}

/// The sum of this depth.
fn sum_text(alloc: Global, depth: u32) -> Result<String, AllocError>
    ensures { IfOk result (λ text. string_bytes text ≡ sum_text depth) }
{
    if depth == 0 {
        String::from_str(alloc, "d 1")
    } else {
        let part = sum_text(alloc, depth - 1)?;
        doubled(alloc, part.as_str())
    }
}

/// Two such sums in parentheses, with a plus between them.
fn doubled(alloc: Global, sum: &str) -> Result<String, AllocError>
    ensures { IfOk result (λ text. string_bytes text ≡ doubled sum.now) }
{
    format!(in alloc; "({sum}) + ({sum})")
}
