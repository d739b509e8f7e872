//! The step on terms with names.

ghost use Rattle.std.specs.Prelude.{◌≡◌, IfOk, Some, if◌then◌else◌};
ghost use Rattle.std.specs.Str.{bytes_eq};
ghost use Rattle.std.specs.Option.{option_map};
ghost use Rattle.pcf_values.specs.Values.{val_op};
ghost use Rattle.pcf_values.specs.Terms.{at_side};
ghost use Rattle.pcf_values.specs.Named.{the_succ, the_pred, the_part, the_fun, the_fix, word_at, binary_at, ifz_at, bind_at, apply_at};
ghost use Rattle.pcf_values.specs.Named.{name_at};
ghost use Rattle.pcf_values.specs.Views.{named_of, ty_of};
ghost use Rattle.term_steps.specs.Names.{named_spelled, named_spell, put, named_step};
ghost use Rattle.term_steps.specs.Spelled.{on_spelled};

use pcf_values::{Ident, Named, Operator, Raw, Side, Val};
use std::alloc::{AllocError, Global};

/// The value that the term spells, where it spells one.
pub fn spelled(term: &Named) -> Option<Val>
    ensures { result ≡ named_spelled (named_of term.now) }
{
    match &term.raw {
        Raw::Number(n) => Some(Val::Number(*n)),
        Raw::Succ(a) => past_all(a),
        _ => None,
    }
}

/// Overflow where the next of the term is spelled so.
fn past_all(term: &Named) -> Option<Val>
    ensures { result ≡ named_spelled (word_at 0 the_succ (named_of term.now)) }
{
    match &term.raw {
        Raw::Number(n) => match Val::Number(*n).succ() {
            Val::Number(_) => None,
            Val::Overflow => Some(Val::Overflow),
        },
        _ => None,
    }
}

/// A term at this place that spells the value.
fn spell(alloc: Global, at: u32, value: Val) -> Result<Named, AllocError>
    ensures { IfOk result (λ t. named_of t ≡ named_spell at value) }
{
    match value {
        Val::Number(n) => Ok(Named {
            at,
            raw: Raw::Number(n),
        }),
        Val::Overflow => {
            let most = Box::new(
                alloc,
                Named {
                    at,
                    raw: Raw::Number(u64::MAX),
                },
            )?;
            Ok(Named {
                at,
                raw: Raw::Succ(most),
            })
        }
    }
}

/// The body with the closed term put for the name.
#[cycle(puts)]
fn put(alloc: Global, body: &Named, name: &Ident, closed: &Named) -> Result<Named, AllocError>
    ensures { IfOk result (λ t. named_of t ≡ put name.now (named_of closed.now) (named_of body.now)) }
{
    let at = body.at;
    match &body.raw {
        Raw::Number(n) => Ok(Named {
            at,
            raw: Raw::Number(*n),
        }),
        Raw::Name(y) => put_name(alloc, at, y, name, closed),
        Raw::Succ(a) => Ok(Named {
            at,
            raw: Raw::Succ(put_box(alloc, a, name, closed)?),
        }),
        Raw::Pred(a) => Ok(Named {
            at,
            raw: Raw::Pred(put_box(alloc, a, name, closed)?),
        }),
        Raw::Proj(side, a) => Ok(Named {
            at,
            raw: Raw::Proj(*side, put_box(alloc, a, name, closed)?),
        }),
        Raw::Binary(operator, a, b) => {
            let (a, b) = put_both(alloc, a, b, name, closed)?;
            Ok(Named {
                at,
                raw: Raw::Binary(*operator, a, b),
            })
        }
        Raw::App(a, b) => {
            let (a, b) = put_both(alloc, a, b, name, closed)?;
            Ok(Named {
                at,
                raw: Raw::App(a, b),
            })
        }
        Raw::Pair(a, b) => {
            let (a, b) = put_both(alloc, a, b, name, closed)?;
            Ok(Named {
                at,
                raw: Raw::Pair(a, b),
            })
        }
        Raw::Ifz(c, p, q) => {
            let (p, q) = put_both(alloc, p, q, name, closed)?;
            Ok(Named {
                at,
                raw: Raw::Ifz(put_box(alloc, c, name, closed)?, p, q),
            })
        }
        Raw::Fun(y, ty, m) => {
            let m = put_under(alloc, m, y, name, closed)?;
            let ty = ty.copy(alloc)?;
            Ok(Named {
                at,
                raw: Raw::Fun(y.copy(alloc)?, ty, m),
            })
        }
        Raw::Fix(y, ty, m) => {
            let m = put_under(alloc, m, y, name, closed)?;
            let ty = ty.copy(alloc)?;
            Ok(Named {
                at,
                raw: Raw::Fix(y.copy(alloc)?, ty, m),
            })
        }
    }
}

/// A name with the closed term put for it, where it is the one.
fn put_name(
    alloc: Global,
    at: u32,
    y: &Ident,
    name: &Ident,
    closed: &Named,
) -> Result<Named, AllocError>
    ensures { IfOk result (λ t. named_of t ≡ put name.now (named_of closed.now) (name_at at y.now)) }
{
    if name.as_str() == y.as_str() {
        closed.copy(alloc)
    } else {
        Ok(Named {
            at,
            raw: Raw::Name(y.copy(alloc)?),
        })
    }
}

/// The body with the closed term put for the name, in a box.
#[cycle(puts)]
fn put_box(
    alloc: Global,
    body: &Named,
    name: &Ident,
    closed: &Named,
) -> Result<Box<Named>, AllocError>
    ensures { IfOk result (λ t. named_of t.value ≡ put name.now (named_of closed.now) (named_of body.now)) }
{
    Ok(Box::new(alloc, put(alloc, body, name, closed)?)?)
}

/// Both bodies with the closed term put for the name, in boxes.
#[cycle(puts)]
fn put_both(
    alloc: Global,
    a: &Named,
    b: &Named,
    name: &Ident,
    closed: &Named,
) -> Result<(Box<Named>, Box<Named>), AllocError>
    ensures { IfOk result (λ p. (named_of p.0.value ≡ put name.now (named_of closed.now) (named_of a.now)) ×
        (named_of p.1.value ≡ put name.now (named_of closed.now) (named_of b.now))) }
{
    let a = put_box(alloc, a, name, closed)?;
    let b = put_box(alloc, b, name, closed)?;
    Ok((a, b))
}

/// The body of a binder of the name y: it stays where y is the name.
#[cycle(puts)]
fn put_under(
    alloc: Global,
    body: &Named,
    y: &Ident,
    name: &Ident,
    closed: &Named,
) -> Result<Box<Named>, AllocError>
    ensures { IfOk result (λ t. named_of t.value ≡
        (if bytes_eq name.now y.now then named_of body.now else put name.now (named_of closed.now) (named_of body.now))) }
{
    if name.as_str() == y.as_str() {
        Ok(Box::new(alloc, body.copy(alloc)?)?)
    } else {
        put_box(alloc, body, name, closed)
    }
}

/// The term after one step, or none where it has none: it spells a value, is a `fun` or a pair, or is stuck.
///
/// # Errors
///
/// It runs out of memory.
#[cycle(steps)]
pub fn step(alloc: Global, term: &Named) -> Result<Option<Named>, AllocError>
    ensures { IfOk result (λ o. option_map named_of o ≡ named_step (named_of term.now)) }
{
    match &term.raw {
        Raw::Number(_) | Raw::Name(_) | Raw::Fun(_, _, _) | Raw::Pair(_, _) => Ok(None),
        Raw::Succ(a) => step_succ(alloc, term.at, a),
        Raw::Pred(a) => step_pred(alloc, term.at, a),
        Raw::Binary(operator, a, b) => step_binary(alloc, term.at, *operator, a, b),
        Raw::Ifz(c, p, q) => step_ifz(alloc, term.at, c, p, q),
        Raw::Fix(x, _, body) => Ok(Some(put(alloc, body, x, term)?)),
        Raw::App(f, a) => step_app(alloc, term.at, f, a),
        Raw::Proj(side, a) => step_proj(alloc, term.at, *side, a),
    }
}

/// The same term in a box of its own.
fn copied(alloc: Global, term: &Named) -> Result<Box<Named>, AllocError>
    ensures { IfOk result (λ t. named_of t.value ≡ named_of term.now) }
{
    Ok(Box::new(alloc, term.copy(alloc)?)?)
}

/// The term after one step, in a box.
#[cycle(steps)]
fn stepped(alloc: Global, term: &Named) -> Result<Option<Box<Named>>, AllocError>
    ensures { IfOk result (λ o. option_map (λ b. named_of b.value) o ≡ named_step (named_of term.now)) }
{
    match step(alloc, term)? {
        Some(next) => Ok(Some(Box::new(alloc, next)?)),
        None => Ok(None),
    }
}

/// The step of a `succ`: of its operand, or to the next number. Past the last number there is none.
#[cycle(steps)]
fn step_succ(alloc: Global, at: u32, a: &Named) -> Result<Option<Named>, AllocError>
    ensures { IfOk result (λ o. option_map named_of o ≡ named_step (word_at at the_succ (named_of a.now))) }
{
    match (past_all(a), spelled(a)) {
        (Some(_), _) => Ok(None),
        (None, Some(v)) => Ok(Some(spell(alloc, at, v.succ())?)),
        (None, None) => match stepped(alloc, a)? {
            Some(b) => Ok(Some(Named {
                at,
                raw: Raw::Succ(b),
            })),
            None => Ok(None),
        },
    }
}

/// The step of a `pred`: of its operand, or to the number before.
#[cycle(steps)]
fn step_pred(alloc: Global, at: u32, a: &Named) -> Result<Option<Named>, AllocError>
    ensures { IfOk result (λ o. option_map named_of o ≡ named_step (word_at at the_pred (named_of a.now))) }
{
    match spelled(a) {
        Some(v) => Ok(Some(spell(alloc, at, v.pred())?)),
        None => match stepped(alloc, a)? {
            Some(b) => Ok(Some(Named {
                at,
                raw: Raw::Pred(b),
            })),
            None => Ok(None),
        },
    }
}

/// A step of the part of a pair on a side: that part, where the pair is there.
#[cycle(steps)]
fn step_proj(alloc: Global, at: u32, side: Side, a: &Named) -> Result<Option<Named>, AllocError>
    ensures { IfOk result (λ o. option_map named_of o ≡ named_step (word_at at (the_part side) (named_of a.now))) }
{
    match &a.raw {
        Raw::Pair(m, n) => Ok(Some(copied_part(alloc, side, m, n)?)),
        _ => match stepped(alloc, a)? {
            Some(b) => Ok(Some(Named {
                at,
                raw: Raw::Proj(side, b),
            })),
            None => Ok(None),
        },
    }
}

/// The same term as the first on the left, or the second on the right.
fn copied_part(alloc: Global, side: Side, left: &Named, right: &Named) -> Result<Named, AllocError>
    ensures { IfOk result (λ t. named_of t ≡ at_side side (named_of left.now) (named_of right.now)) }
{
    match side {
        Side::Left => left.copy(alloc),
        Side::Right => right.copy(alloc),
    }
}

/// The step of an application: its argument is put as it stands, or its function moves.
#[cycle(steps)]
fn step_app(alloc: Global, at: u32, f: &Named, a: &Named) -> Result<Option<Named>, AllocError>
    ensures { IfOk result (λ o. option_map named_of o ≡ named_step (apply_at at (named_of f.now) (named_of a.now))) }
{
    match &f.raw {
        Raw::Fun(x, _, body) => Ok(Some(put(alloc, body, x, a)?)),
        _ => match stepped(alloc, f)? {
            Some(g) => Ok(Some(Named {
                at,
                raw: Raw::App(g, copied(alloc, a)?),
            })),
            None => Ok(None),
        },
    }
}

/// The step of a test: to a branch where its condition spells a value, and else of the condition.
#[cycle(steps)]
fn step_ifz(
    alloc: Global,
    at: u32,
    c: &Named,
    p: &Named,
    q: &Named,
) -> Result<Option<Named>, AllocError>
    ensures { IfOk result (λ o. option_map named_of o ≡ named_step (ifz_at at (named_of c.now) (named_of p.now) (named_of q.now))) }
{
    match spelled(c) {
        Some(Val::Number(0)) => Ok(Some(p.copy(alloc)?)),
        Some(_) => Ok(Some(q.copy(alloc)?)),
        None => match stepped(alloc, c)? {
            Some(b) => {
                let p = copied(alloc, p)?;
                Ok(Some(Named {
                    at,
                    raw: Raw::Ifz(b, p, copied(alloc, q)?),
                }))
            }
            None => Ok(None),
        },
    }
}

/// The step of an operator: of its left operand, then of its right one, then to its value.
#[cycle(steps)]
fn step_binary(
    alloc: Global,
    at: u32,
    op: Operator,
    a: &Named,
    b: &Named,
) -> Result<Option<Named>, AllocError>
    ensures { IfOk result (λ o. option_map named_of o ≡ named_step (binary_at at op (named_of a.now) (named_of b.now))) }
{
    match spelled(a) {
        Some(v) => step_right(alloc, at, op, v, a, b),
        None => match stepped(alloc, a)? {
            Some(c) => Ok(Some(Named {
                at,
                raw: Raw::Binary(op, c, copied(alloc, b)?),
            })),
            None => Ok(None),
        },
    }
}

/// The step of an operation whose left operand spells a value.
#[cycle(steps)]
fn step_right(
    alloc: Global,
    at: u32,
    op: Operator,
    v: Val,
    a: &Named,
    b: &Named,
) -> Result<Option<Named>, AllocError>
    ensures { IfOk result (λ o. option_map named_of o ≡ on_spelled (named_spelled (named_of b.now))
        (λ w. Some (named_spell at (val_op op v w)))
        (option_map (λ c. binary_at at op (named_of a.now) c) (named_step (named_of b.now)))) }
{
    match spelled(b) {
        Some(w) => Ok(Some(spell(alloc, at, v.by(op, w))?)),
        None => match stepped(alloc, b)? {
            Some(c) => Ok(Some(Named {
                at,
                raw: Raw::Binary(op, copied(alloc, a)?, c),
            })),
            None => Ok(None),
        },
    }
}
