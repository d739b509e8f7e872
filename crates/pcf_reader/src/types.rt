//! The types of a text, phrase by phrase, as in the descent over terms.

ghost use Rattle.std.specs.Prelude.{◌≡◌, ℕ, ◌+◌, ◌<◌, ◌≤◌, length, [], OnOk};
ghost use Rattle.pcf_reader.specs.Machine.{step, TypeK, PTypeK, first_ptype, type_open, ptype_open, begin_tatom, end_type, end_ptype};
ghost use Rattle.pcf_reader.specs.Machine.{after_tatom};
ghost use Rattle.pcf_reader.specs.Rest.{resume, Gives};
ghost use Rattle.pcf_values.specs.Views.{ty_of};
ghost use Rattle.pcf_values.specs.Most.{most_open};

use crate::fault::ReadFault;
use crate::lexer::is_star;
use crate::reader::Reader;
use crate::token::Token;
use pcf_values::Ty;
use std::alloc::Global;

/// A type.
///
/// # Errors
///
/// The first fault of the text, where it is met in the type or at the token behind it, or `NoMemory`.
#[cycle(types)]
pub fn type_of(reader: &mut Reader, alloc: Global, depth: u32) -> Result<Box<Ty>, ReadFault>
    requires { depth ≤ most_open }
    ensures goes { (k : TypeK) → type_open k ≡ depth →
        Gives (λ t. resume (end_type k (ty_of t.value)) reader.new) (resume (begin_tatom (first_ptype k)) reader.old) result }
    ensures shorter { OnOk result (length reader.new.after < length reader.old.after) }
{
    let from = product_of(reader, alloc, depth)?;
    match reader.token() {
        Token::Arrow => {
            reader.take_at(depth, 0)?;
            let to = type_of(reader, alloc, depth + 1)?;
            Ok(Box::new(alloc, Ty::Arrow(from, to))?)
        }
        _ => Ok(from),
    }
}

/// A product of atoms of types.
#[cycle(types)]
fn product_of(reader: &mut Reader, alloc: Global, depth: u32) -> Result<Box<Ty>, ReadFault>
    requires { depth ≤ most_open }
    ensures goes { (k : PTypeK) → ptype_open k ≡ depth →
        Gives (λ t. resume (end_ptype k (ty_of t.value)) reader.new) (resume (begin_tatom k) reader.old) result }
    ensures shorter { OnOk result (length reader.new.after < length reader.old.after) }
{
    let left = atom_of(reader, alloc, depth)?;
    if is_star(reader.token()) {
        reader.take_at(depth, 0)?;
        let right = product_of(reader, alloc, depth + 1)?;
        Ok(Box::new(alloc, Ty::Product(left, right))?)
    } else {
        Ok(left)
    }
}

/// `nat`, or a type in parentheses.
#[cycle(types)]
fn atom_of(reader: &mut Reader, alloc: Global, depth: u32) -> Result<Box<Ty>, ReadFault>
    requires { depth ≤ most_open }
    ensures goes { (k : PTypeK) → ptype_open k ≡ depth →
        Gives (λ t. resume (step (after_tatom k (ty_of t.value))) reader.new) (resume (begin_tatom k) reader.old) result }
    ensures shorter { OnOk result (length reader.new.after < length reader.old.after) }
{
    let at = reader.at();
    match reader.token() {
        Token::Nat => {
            reader.take(1)?;
            Ok(Box::new(alloc, Ty::Nat)?)
        }
        Token::Open => {
            reader.take_at(depth, 0)?;
            let inner = type_of(reader, alloc, depth + 1)?;
            match reader.token() {
                Token::Close => {
                    reader.take(0)?;
                    Ok(inner)
                }
                _ => Err(ReadFault::Unexpected(reader.at())),
            }
        }
        _ => Err(ReadFault::Unexpected(at)),
    }
}
