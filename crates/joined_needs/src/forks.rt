//! Open forks.

ghost use Rattle.std.specs.Prelude.{◌≡◌, ◌∷◌, Some, OnOk, map};
ghost use Rattle.joined_module.specs.Machine.{innermost, around, value_or_zero};
ghost use Rattle.joined_needs.specs.Views.{pointer_of, open_of, forks_of};
ghost use Rattle.joined_needs.specs.Making.{Taken};

use crate::walk::{Open, Pointer};
use pcf_values::Val;
use std::alloc::{AllocError, Global};

/// The boxes of the innermost.
pub(crate) fn innermost_boxes<'f>(forks: &'f [Open]) -> &'f [Pointer]
    ensures { map pointer_of result.now ≡ (innermost (forks_of forks.now)).boxes }
{
    match forks {
        [] => &[],
        [.., last] => &last.boxes,
    }
}

/// The cells that were in use when it was opened.
pub(crate) fn innermost_top(forks: &[Open]) -> u64
    ensures { result ≡ (innermost (forks_of forks.now)).top }
{
    match forks {
        [] => 0,
        [.., last] => last.top,
    }
}

/// Its left answer, or 0.
pub(crate) fn innermost_answer(forks: &[Open]) -> Val
    ensures { result ≡ value_or_zero (innermost (forks_of forks.now)).answered }
{
    match forks {
        [] => Val::Number(0),
        [.., last] => match last.answered {
            Some(v) => v,
            None => Val::Number(0),
        },
    }
}

/// Opens one.
pub(crate) fn open_fork(forks: &mut Vec<Open>, fork: Open) -> Result<(), AllocError>
    ensures { OnOk result (forks_of forks.new.items ≡ open_of fork ∷ forks_of forks.old.items) }
{
    forks.push(fork)?;
    Ok(())
}

/// Takes the innermost off; where none is open it has nothing.
fn take_fork(alloc: Global, forks: &mut Vec<Open>) -> Open
    ensures { Taken forks.old.items forks.new.items (open_of result) }
{
    match forks.pop() {
        Some(fork) => fork,
        None => Open {
            boxes: Vec::new(alloc),
            answered: None,
            top: 0,
        },
    }
}

/// Closes the innermost.
pub(crate) fn close_fork(alloc: Global, forks: &mut Vec<Open>)
    ensures { forks_of forks.new.items ≡ around (forks_of forks.old.items) }
{
    drop(take_fork(alloc, forks));
}

/// The innermost gets its left answer.
pub(crate) fn keep_answer(
    alloc: Global,
    forks: &mut Vec<Open>,
    answer: Val,
) -> Result<(), AllocError>
    ensures { OnOk result (forks_of forks.new.items
        ≡ record (innermost (forks_of forks.old.items)) { answered = Some answer } ∷ around (forks_of forks.old.items)) }
{
    let fork = take_fork(alloc, forks);
    open_fork(
        forks,
        Open {
            boxes: fork.boxes,
            answered: Some(answer),
            top: fork.top,
        },
    )
}
