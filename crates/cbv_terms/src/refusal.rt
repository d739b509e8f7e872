//! Whether a program is refused by value, and for what.

ghost use Rattle.std.specs.Prelude.{◌≡◌, ◌↔◌, ◌≤◌, not, IsTrue, MatchOption, None};
ghost use Rattle.pcf_values.specs.Named.{named_height};
ghost use Rattle.pcf_values.specs.Views.{ty_of, named_of};
ghost use Rattle.cbv_terms.specs.Translation.{has_product};
ghost use Rattle.cbv_terms.specs.Faults.{is_of_fun, IsFaultless, IsFirstFault, HasFault};
ghost use Rattle.cbv_terms.specs.Scan.{Finds, first_of, lesser, where_holds};

use crate::{BY_VALUE_HEIGHT, ByValueFault};
use pcf_values::{Named, Raw, Ty};

/// The least places in a tree of both kinds of faults that have places.
#[derive(Clone, Copy)]
struct Least {
    fixes: Option<u32>,
    pairs: Option<u32>,
}

/// The first fault of the program, or none.
pub(crate) fn refusal(program: &Named) -> Option<ByValueFault>
    ensures { MatchOption result (IsFaultless (named_of program.now)) (IsFirstFault (named_of program.now)) }
{
    if !is_within(program, BY_VALUE_HEIGHT) {
        return Some(ByValueFault::ByValueDeep);
    }
    first_of(scan(program))
}

/// The first of the faults at these places: the one at the least place, and at one place the `fix`.
fn first_of(found: Least) -> Option<ByValueFault>
    ensures { result ≡ first_of found.fixes found.pairs }
{
    match (found.fixes, found.pairs) {
        (Some(fix), Some(pair)) => {
            if fix <= pair {
                Some(ByValueFault::ByValueFix(fix))
            } else {
                Some(ByValueFault::ByValuePair(pair))
            }
        }
        (Some(fix), None) => Some(ByValueFault::ByValueFix(fix)),
        (None, Some(pair)) => Some(ByValueFault::ByValuePair(pair)),
        (None, None) => None,
    }
}

/// Whether the tree is no higher than this. It looks no deeper.
#[tactic(auto, using(crate::proofs::Scanning::named_height_positive))]
fn is_within(tree: &Named, most: u32) -> bool
    ensures { IsTrue result ↔ (named_height (named_of tree.now) ≤ most) }
{
    if most == 0 {
        return false;
    }
    let left = most - 1;
    match &tree.raw {
        Raw::Number(_) | Raw::Name(_) => true,
        Raw::Succ(a) | Raw::Pred(a) | Raw::Proj(_, a) => is_within(a, left),
        Raw::Fun(_, _, a) | Raw::Fix(_, _, a) => is_within(a, left),
        Raw::Binary(_, a, b) => is_within(a, left) && is_within(b, left),
        Raw::App(a, b) | Raw::Pair(a, b) => is_within(a, left) && is_within(b, left),
        Raw::Ifz(c, p, q) => is_within(c, left) && is_within(p, left) && is_within(q, left),
    }
}

/// The least places of faults in the tree.
fn scan(tree: &Named) -> Least
    ensures { Finds (HasFault (named_of tree.now)) result }
{
    match &tree.raw {
        Raw::Number(_) | Raw::Name(_) => found(None, None),
        Raw::Succ(a) | Raw::Pred(a) => scan(a),
        Raw::Binary(_, a, b) | Raw::App(a, b) => both(scan(a), scan(b)),
        Raw::Ifz(c, p, q) => both(scan(c), both(scan(p), scan(q))),
        Raw::Fun(_, ty, body) => both(typed_at(tree.at, ty), scan(body)),
        Raw::Fix(_, ty, body) => both(
            fixed_at(tree.at, ty, body),
            both(typed_at(tree.at, ty), scan(body)),
        ),
        Raw::Pair(a, b) => both(found(None, Some(tree.at)), both(scan(a), scan(b))),
        Raw::Proj(_, a) => both(found(None, Some(tree.at)), scan(a)),
    }
}

/// The least places where one node alone was looked at.
fn found(fixes: Option<u32>, pairs: Option<u32>) -> Least
    ensures fixes { result.fixes ≡ fixes }
    ensures pairs { result.pairs ≡ pairs }
{
    Least { fixes, pairs }
}

/// The lesser places of each kind.
fn both(a: Least, b: Least) -> Least
    ensures fixes { result.fixes ≡ lesser a.fixes b.fixes }
    ensures pairs { result.pairs ≡ lesser a.pairs b.pairs }
{
    found(lesser(a.fixes, b.fixes), lesser(a.pairs, b.pairs))
}

/// The lesser of the places that there are.
fn lesser(a: Option<u32>, b: Option<u32>) -> Option<u32>
    ensures { result ≡ lesser a b }
{
    match (a, b) {
        (Some(a), Some(b)) => Some(a.min(b)),
        (Some(a), None) => Some(a),
        (None, b) => b,
    }
}

/// The fault of a binder of this type at this place, where its type has a product.
fn typed_at(at: u32, ty: &Ty) -> Least
    ensures fixes { result.fixes ≡ None }
    ensures pairs { result.pairs ≡ where_holds (has_product (ty_of ty.now)) at }
{
    found(None, has_product(ty).then_some(at))
}

/// The fault of a `fix` at this place, where it isn't of a function's type and of a `fun`.
fn fixed_at(at: u32, ty: &Ty, body: &Named) -> Least
    ensures fixes { result.fixes ≡ where_holds (not (is_of_fun (ty_of ty.now) (named_of body.now))) at }
    ensures pairs { result.pairs ≡ None }
{
    found((!is_of_fun(ty, body)).then_some(at), None)
}

/// Whether a part of the type is a product.
fn has_product(ty: &Ty) -> bool
    ensures { result ≡ has_product (ty_of ty.now) }
{
    match ty {
        Ty::Nat => false,
        Ty::Arrow(from, to) => has_product(from) || has_product(to),
        Ty::Product(_, _) => true,
    }
}

/// Whether a `fix` of this type with this body is of a function's type and of a `fun`.
fn is_of_fun(ty: &Ty, body: &Named) -> bool
    ensures { result ≡ is_of_fun (ty_of ty.now) (named_of body.now) }
{
    matches!((ty, &body.raw), (Ty::Arrow(_, _), Raw::Fun(_, _, _)))
}
