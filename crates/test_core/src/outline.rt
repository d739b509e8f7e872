//! Trees with their places, for each form.

use crate::rows::{Says, first_wrong};
use pcf_reader::{print_ty, read_program};
use pcf_values::{Ident, Named, Operator, Raw, Side, Ty};
use std::alloc::{AllocError, Global};
use std::test::Fail;

/// The tree of a text: for each node its place where places are asked for, its form, and its parts. Nothing where the text is refused.
pub(crate) fn outline(alloc: Global, text: &[u8], placed: bool) -> Result<Vec<u8>, AllocError> {
    let mut out = Vec::new(alloc);
    if let Ok(tree) = read_program(alloc, text) {
        let pushed = push(alloc, &mut out, &tree, placed);
        drop(tree);
        pushed?;
    }
    Ok(out)
}

/// Whether this is the tree of a text, with all places.
pub(crate) fn is_outlined(alloc: Global, text: &[u8], wanted: &[u8]) -> Result<bool, AllocError> {
    Ok(outline(alloc, text, true)?.as_slice() == wanted)
}

/// Puts the outline of a tree behind what is there.
#[cycle(outline)]
fn push(alloc: Global, out: &mut Vec<u8>, tree: &Named, placed: bool) -> Result<(), AllocError> {
    push_place(alloc, out, tree.at, placed)?;
    match &tree.raw {
        Raw::Number(n) => push_number(alloc, out, *n),
        Raw::Name(x) => out.extend_from_slice(x.as_str().as_bytes()),
        Raw::Succ(a) => push_part(alloc, out, b"succ", a, placed),
        Raw::Pred(a) => push_part(alloc, out, b"pred", a, placed),
        Raw::Proj(Side::Left, a) => push_part(alloc, out, b"fst", a, placed),
        Raw::Proj(Side::Right, a) => push_part(alloc, out, b"snd", a, placed),
        Raw::Binary(operator, a, b) => push_parts(alloc, out, word_of(*operator), a, b, placed),
        Raw::App(a, b) => push_parts(alloc, out, b"app", a, b, placed),
        Raw::Pair(a, b) => push_parts(alloc, out, b"pair", a, b, placed),
        Raw::Ifz(c, p, q) => {
            push_part(alloc, out, b"ifz", c, placed)?;
            push_parts(alloc, out, b"", p, q, placed)
        }
        Raw::Fun(x, ty, a) => {
            push_binder(alloc, out, b"fun ", x, ty)?;
            push_part(alloc, out, b"", a, placed)
        }
        Raw::Fix(x, ty, a) => {
            push_binder(alloc, out, b"fix ", x, ty)?;
            push_part(alloc, out, b"", a, placed)
        }
    }
}

/// How an outline names an operator.
fn word_of(operator: Operator) -> &'static [u8] {
    match operator {
        Operator::Plus => b"plus",
        Operator::Minus => b"minus",
        Operator::Times => b"times",
    }
}

/// Adds a place, where places are told.
fn push_place(alloc: Global, out: &mut Vec<u8>, at: u32, placed: bool) -> Result<(), AllocError> {
    if placed {
        push_number(alloc, out, at as u64)?;
        out.extend_from_slice(b":")?;
    }
    Ok(())
}

/// Puts a number behind what is there, in decimal digits.
fn push_number(alloc: Global, out: &mut Vec<u8>, number: u64) -> Result<(), AllocError> {
    let digits = format!(in alloc; "{number}")?;
    out.extend_from_slice(digits.as_bytes())
}

/// Puts the word of a binder, its name, a colon and its type behind what is there.
fn push_binder(
    alloc: Global,
    out: &mut Vec<u8>,
    word: &[u8],
    name: &Ident,
    ty: &Ty,
) -> Result<(), AllocError> {
    out.extend_from_slice(word)?;
    out.extend_from_slice(name.as_str().as_bytes())?;
    out.extend_from_slice(b":")?;
    out.extend_from_slice(&print_ty(alloc, ty)?)
}

/// Puts a form and its one part in parentheses behind what is there.
#[cycle(outline)]
fn push_part(
    alloc: Global,
    out: &mut Vec<u8>,
    form: &[u8],
    a: &Named,
    placed: bool,
) -> Result<(), AllocError> {
    out.extend_from_slice(form)?;
    out.extend_from_slice(b"(")?;
    push(alloc, out, a, placed)?;
    out.extend_from_slice(b")")
}

/// Puts a form and its two parts behind what is there, each in parentheses.
#[cycle(outline)]
fn push_parts(
    alloc: Global,
    out: &mut Vec<u8>,
    form: &[u8],
    a: &Named,
    b: &Named,
    placed: bool,
) -> Result<(), AllocError> {
    push_part(alloc, out, form, a, placed)?;
    push_part(alloc, out, b"", b, placed)
}

#[test]
fn trees_with_places(rt: HostRuntime) -> Result<(), Fail> {
    let trees = "
 007 |1:7
((x))|2:x
succ succ x|0:succ(5:succ(10:x))
( pred 1)|2:pred(7:1)
fst (snd (x))|0:fst(5:snd(10:x))
snd x|0:snd(4:x)
( (x) + 2 )|3:plus(3:x)(8:2)
1 + 2 - 3|0:minus(0:plus(0:1)(4:2))(8:3)
1 - (2 + 3)|0:minus(0:1)(5:plus(5:2)(9:3))
(1)*2*3|1:times(1:times(1:1)(4:2))(6:3)
1+2*f x|0:plus(0:1)(2:times(2:2)(4:app(4:f)(6:x)))
(f) (x) 3|1:app(1:app(1:f)(5:x))(8:3)
f succ x 1|0:app(0:app(0:f)(2:succ(7:x)))(9:1)
(1, (2,3))|0:pair(1:1)(4:pair(5:2)(7:3))
((1,2))|1:pair(2:1)(4:2)
(1,2) + 3|0:plus(0:pair(1:1)(3:2))(8:3)
ifz 0 then (1) else 2+3|0:ifz(4:0)(12:1)(20:plus(20:2)(22:3))
(ifz x then y else z) w|1:app(1:ifz(5:x)(12:y)(19:z))(22:w)
fun x:nat. x|0:fun x:nat(11:x)
(fun x:nat->nat*nat.x x) 1|1:app(1:fun x:nat -> nat * nat(20:app(20:x)(22:x)))(25:1)
fix f:(nat -> nat) -> nat. fun g:nat*(nat*nat). f|0:fix f:(nat -> nat) -> nat(27:fun g:nat * nat * nat(48:f))
é + 日|0:plus(0:é)(5:日)
1_0|0:app(0:1)(1:_0)
";
    assert!(rt; first_wrong(rt.alloc(), Says::Tree, trees)? == None);
    assert!(rt; is_outlined(rt.alloc(), b"# a\n1 # b\n+ # c\n2", b"4:plus(4:1)(16:2)")?);
    Ok(())
}
