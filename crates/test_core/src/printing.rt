//! What is printed of a tree that was read.

use crate::rows::{Says, first_wrong};
use pcf_reader::{print_term, read_program};
use std::alloc::{AllocError, Global};
use std::test::Fail;

/// What is printed of the tree that a text is, and nothing where it is none.
fn respelled(alloc: Global, text: &[u8]) -> Result<Vec<u8>, AllocError> {
    let Ok(tree) = read_program(alloc, text) else {
        return Ok(Vec::new(alloc));
    };
    let printed = print_term(alloc, &tree);
    drop(tree);
    printed
}

/// Whether this is printed of the tree that a text is.
pub(crate) fn is_printed(alloc: Global, text: &[u8], wanted: &[u8]) -> Result<bool, AllocError> {
    Ok(respelled(alloc, text)?.as_slice() == wanted)
}

#[test]
fn printed(rt: HostRuntime) -> Result<(), Fail> {
    let spelled = "
(fun x:nat. x+x) 0007|(fun x:nat. x + x) 7
1_0|1 _0
2+3*4|2 + 3 * 4
(2+3)*4|(2 + 3) * 4
7-(2-1)|7 - (2 - 1)
(7-2)-1|7 - 2 - 1
2*(3*4)|2 * (3 * 4)
((f)) (g x)|f (g x)
succ((1))|succ 1
fst(a b)|fst (a b)
(1,(2,fun x:nat.(x)))|(1, (2, fun x:nat. x))
1+(ifz(0)then(1)else(2))|1 + (ifz 0 then 1 else 2)
fix x:(nat)->(nat).x|fix x:nat -> nat. x
fun x:(nat->nat)->(nat->nat).x|fun x:(nat -> nat) -> nat -> nat. x
fun x:(nat*nat)->(nat*nat).x|fun x:nat * nat -> nat * nat. x
fun x:(nat)*(nat).x|fun x:nat * nat. x
fun x:(nat->nat)*(nat->nat).x|fun x:(nat -> nat) * (nat -> nat). x
fun x:(nat*nat)*(nat*nat).x|fun x:(nat * nat) * nat * nat. x
été日𝒳 \u{61}\u{301}|été日𝒳 \u{61}\u{301}
";
    assert!(rt; first_wrong(rt.alloc(), Says::Spelling, spelled)? == None);
    let twice = b"# twice\n(fun x:nat. x+x) 0007";
    assert!(rt; is_printed(rt.alloc(), twice, b"(fun x:nat. x + x) 7")?);
    Ok(())
}

/// A front so many times, `0`, and a back as many times.
fn nested(alloc: Global, open: &[u8], close: &[u8], count: u32) -> Result<Vec<u8>, AllocError> {
    let mut text = Vec::new(alloc);
    for _ in 0..count {
        text.extend_from_slice(open)?;
    }
    text.extend_from_slice(b"0")?;
    for _ in 0..count {
        text.extend_from_slice(close)?;
    }
    Ok(text)
}

/// How many bytes are printed of the highest program: so many times a sum, a product and an application in one another.
fn length_of_highest(alloc: Global, levels: u32) -> Result<usize, AllocError> {
    let tall = nested(alloc, b"1+1*f(", b")", levels)?;
    Ok(respelled(alloc, &tall)?.len())
}

#[test]
fn the_highest_program(rt: HostRuntime) -> Result<(), Fail> {
    assert!(rt; length_of_highest(rt.alloc(), 500)? == 5999);
    Ok(())
}
