//! The solo rules of numbers and tests, in place. None takes memory. Each function takes a token that faces its node; where no rule
//! fits, the token stays as it was.

ghost use Rattle.std.specs.Prelude.{◌≡◌, ℕ};
ghost use Rattle.pcf_values.specs.Values.{at_zero};
ghost use Rattle.net_build.specs.declared.node.Node.TheVariants.{Const, Succ, Pred, Ifz};
ghost use Rattle.move_rules.specs.Steps.{Passes};

use crate::{Kind, Token};
use pcf_values::Val;

/// A constant: a question is answered with its number.
pub(crate) fn const_moves(token: &mut Token, v: u64) -> bool
    ensures { (w : ℕ) → Passes (Const v w) token.old result token.new }
{
    match token.kind {
        Kind::Ask if token.up && token.stacks.work_is_empty() => {
            token.kind = Kind::Ans(Val::Number(v));
            token.up = false;
            true
        }
        _ => false,
    }
}

/// A successor: a question goes on to the operand, and its answer comes back larger by one.
pub(crate) fn succ_moves(token: &mut Token, a: u32, w: u32) -> bool
    ensures { Passes (Succ a w) token.old result token.new }
{
    if !token.stacks.work_is_empty() {
        return false;
    }
    match token.kind {
        Kind::Ask if token.up => {
            token.wire = a;
            true
        }
        Kind::Ans(v) if !token.up => {
            token.kind = Kind::Ans(v.succ());
            token.wire = w;
            true
        }
        _ => false,
    }
}

/// A predecessor: a question goes on to the operand, and its answer comes back less by one, or as 0.
pub(crate) fn pred_moves(token: &mut Token, a: u32, w: u32) -> bool
    ensures { Passes (Pred a w) token.old result token.new }
{
    if !token.stacks.work_is_empty() {
        return false;
    }
    match token.kind {
        Kind::Ask if token.up => {
            token.wire = a;
            true
        }
        Kind::Ans(v) if !token.up => {
            token.kind = Kind::Ans(v.pred());
            token.wire = w;
            true
        }
        _ => false,
    }
}

/// The branch that a test takes.
fn branch(v: Val, p: u32, q: u32) -> u32
    ensures { result ≡ at_zero v p q }
{
    match v {
        Val::Number(0) => p,
        _ => q,
    }
}

/// A test: a question goes to what is tested, that answer to a branch, and the branch's answer out.
pub(crate) fn test_moves(token: &mut Token, c: u32, p: u32, q: u32, w: u32) -> bool
    ensures { Passes (Ifz c p q w) token.old result token.new }
{
    if !token.stacks.work_is_empty() {
        return false;
    }
    match token.kind {
        Kind::Ask if token.up => {
            token.wire = c;
            true
        }
        Kind::Ans(v) if !token.up && c == token.wire => {
            token.kind = Kind::Ask;
            token.wire = branch(v, p, q);
            token.up = true;
            true
        }
        Kind::Ans(_) if !token.up && (p == token.wire || q == token.wire) => {
            token.wire = w;
            true
        }
        _ => false,
    }
}
