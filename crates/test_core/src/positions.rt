//! Printing and reading back: each form in each position.

use crate::outline::outline;
use crate::printing::is_printed;
use std::alloc::{AllocError, Global};
use std::test::Fail;
use testing_gates::{cut, number};

/// How tightly each form holds together: 0 reaches as far right as it can, 1 is a sum, 2 a product, 3 an application, 4 an atom.
const FORMS: &str = "
0 fun x:nat. x
0 fix x:nat. x
0 ifz 1 then 2 else 3
1 1 + 2
1 1 - 2
2 1 * 2
3 f x
4 succ 1
4 pred 1
4 fst x
4 snd x
4 (1, 2)
4 7
4 x
";

/// How tightly a form has to hold together to need no parentheses in a position, which is where the line has a `_`.
const POSITIONS: &str = "
0 _
0 fun y:nat. _
0 fix y:nat. _
0 ifz _ then 8 else 9
0 ifz 8 then _ else 9
0 ifz 8 then 9 else _
0 (_, 9)
0 (8, _)
1 _ + 9
1 _ - 9
2 8 + _
2 8 - _
2 _ * 9
3 8 * _
3 _ 9
4 8 _
4 succ _
4 pred _
4 fst _
4 snd _
";

/// A form in a position: in parentheses where that is asked for.
fn placed(alloc: Global, position: &str, form: &str, wrapped: bool) -> Result<Vec<u8>, AllocError> {
    let (before, after) = cut(position, '_');
    let mut text = before.as_bytes().to_vec(alloc)?;
    text.extend_from_slice(if wrapped { b"(" } else { b"" })?;
    text.extend_from_slice(form.as_bytes())?;
    text.extend_from_slice(if wrapped { b")" } else { b"" })?;
    text.extend_from_slice(after.as_bytes())?;
    Ok(text)
}

/// Whether both texts are programs with one tree.
fn have_one_tree(alloc: Global, written: &[u8], spelled: &[u8]) -> Result<bool, AllocError> {
    let tree = outline(alloc, written, false)?;
    Ok(!tree.is_empty() && outline(alloc, spelled, false)?.as_slice() == tree.as_slice())
}

/// Whether a form, written in parentheses, is printed with them exactly where they are needed, and read back to the same tree.
fn comes_back(alloc: Global, position: &str, form: &str, needed: bool) -> Result<bool, AllocError> {
    let written = placed(alloc, position, form, true)?;
    let spelled = placed(alloc, position, form, needed)?;
    Ok(is_printed(alloc, &written, &spelled)? && have_one_tree(alloc, &written, &spelled)?)
}

/// Whether each form comes back from the position of a row.
fn all_come_back(alloc: Global, row: &str) -> Result<bool, AllocError> {
    let (wanted, position) = cut(row, ' ');
    for line in FORMS.lines() {
        let (tightness, form) = cut(line, ' ');
        let needed = number(tightness) < number(wanted);
        if !line.is_empty() && !comes_back(alloc, position, form, needed)? {
            return Ok(false);
        }
    }
    Ok(true)
}

#[test]
fn each_form_in_each_position(rt: HostRuntime) -> Result<(), Fail> {
    for row in POSITIONS.lines() {
        assert!(rt; row.is_empty() || all_come_back(rt.alloc(), row)?);
    }
    Ok(())
}
