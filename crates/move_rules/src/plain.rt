//! The plain rules, node by node, in place. Each function takes a token that faces its node; where no rule fits, or memory
//! runs out, the token stays as it was.

ghost use Rattle.std.specs.Prelude.{◌≡◌, IfOk, OnErr};
ghost use Rattle.net_build.specs.declared.node.Node.TheVariants.{Der, Con, Lam, App, BoxNode, Door, FixBox, Pair, Proj};
ghost use Rattle.pcf_values.specs.declared.side.Side.TheVariants.{Left, Right};
ghost use Rattle.move_rules.specs.AtNode.{plain_at};
ghost use Rattle.move_rules.specs.Steps.{Goes};

use crate::Token;
use pcf_values::Side;
use std::alloc::AllocError;

/// A function: `R` leads up to the body, and `L` with a signature to the variable; both lead back.
#[inline(always)]
pub(crate) fn lam_moves(token: &mut Token, b: u32, x: u32, w: u32) -> Result<bool, AllocError>
    ensures ok { IfOk result (λ made. Goes (plain_at (Lam b x w)) token.old made token.new) }
    ensures err { OnErr result (token.new ≡ token.old) }
{
    if token.up {
        if token.stacks.pop_r() {
            token.wire = b;
            return Ok(true);
        }
        if token.stacks.argument_in() {
            token.wire = x;
            return Ok(true);
        }
        return Ok(false);
    }
    if b == token.wire {
        token.stacks.push_r()?;
        token.wire = w;
        return Ok(true);
    }
    if x == token.wire && token.stacks.argument_out()? {
        token.wire = w;
        return Ok(true);
    }
    Ok(false)
}

/// An application: up to the function with `R`; from the function out, or to the argument; from the argument back to the function.
#[inline(always)]
pub(crate) fn app_moves(token: &mut Token, f: u32, a: u32, w: u32) -> Result<bool, AllocError>
    ensures ok { IfOk result (λ made. Goes (plain_at (App f a w)) token.old made token.new) }
    ensures err { OnErr result (token.new ≡ token.old) }
{
    if token.up {
        token.stacks.push_r()?;
        token.wire = f;
        return Ok(true);
    }
    if f == token.wire {
        if token.stacks.pop_r() {
            token.wire = w;
            return Ok(true);
        }
        if token.stacks.argument_in() {
            token.wire = a;
            token.up = true;
            return Ok(true);
        }
    }
    if a == token.wire && token.stacks.argument_out()? {
        token.wire = f;
        token.up = true;
        return Ok(true);
    }
    Ok(false)
}

/// A box: into it with the signature on the top of the work stack, and out with the one on the top of the box stack.
#[inline(always)]
pub(crate) fn box_moves(token: &mut Token, i: u32, o: u32) -> Result<bool, AllocError>
    ensures ok { IfOk result (λ made. Goes (plain_at (BoxNode i o)) token.old made token.new) }
    ensures err { OnErr result (token.new ≡ token.old) }
{
    if token.up {
        if token.stacks.box_in()? {
            token.wire = i;
            return Ok(true);
        }
    } else if token.stacks.box_out()? {
        token.wire = o;
        return Ok(true);
    }
    Ok(false)
}

/// A door: out of a box by a free variable, with both signatures paired, and in again.
#[inline(always)]
pub(crate) fn door_moves(token: &mut Token, i: u32, o: u32) -> Result<bool, AllocError>
    ensures ok { IfOk result (λ made. Goes (plain_at (Door i o)) token.old made token.new) }
    ensures err { OnErr result (token.new ≡ token.old) }
{
    if token.up {
        if token.stacks.door_in()? {
            token.wire = i;
            return Ok(true);
        }
    } else if token.stacks.door_out()? {
        token.wire = o;
        return Ok(true);
    }
    Ok(false)
}

/// A dereliction: down to the variable with a star, and back without it.
#[inline(always)]
pub(crate) fn der_moves(token: &mut Token, w: u32, x: u32) -> Result<bool, AllocError>
    ensures ok { IfOk result (λ made. Goes (plain_at (Der w x)) token.old made token.new) }
    ensures err { OnErr result (token.new ≡ token.old) }
{
    if !token.up {
        return Ok(false);
    }
    if w == token.wire {
        token.stacks.push_star()?;
        token.wire = x;
        token.up = false;
        return Ok(true);
    }
    if x == token.wire && token.stacks.pop_star() {
        token.wire = w;
        token.up = false;
        return Ok(true);
    }
    Ok(false)
}

/// A contraction: down with the mark of a side, and up to the side of the mark.
#[inline(always)]
pub(crate) fn con_moves(token: &mut Token, l: u32, r: u32, w: u32) -> Result<bool, AllocError>
    ensures ok { IfOk result (λ made. Goes (plain_at (Con l r w)) token.old made token.new) }
    ensures err { OnErr result (token.new ≡ token.old) }
{
    if token.up {
        if token.stacks.unwrap_left() {
            token.wire = l;
            return Ok(true);
        }
        if token.stacks.unwrap_right() {
            token.wire = r;
            return Ok(true);
        }
        return Ok(false);
    }
    if l == token.wire && token.stacks.wrap_left()? {
        token.wire = w;
        return Ok(true);
    }
    if r == token.wire && token.stacks.wrap_right()? {
        token.wire = w;
        return Ok(true);
    }
    Ok(false)
}

/// A fixed point: into the body from outside or by a call from inside, and back to where the call came from.
#[inline(always)]
pub(crate) fn fix_moves(token: &mut Token, b: u32, x: u32, w: u32) -> Result<bool, AllocError>
    ensures ok { IfOk result (λ made. Goes (plain_at (FixBox b x w)) token.old made token.new) }
    ensures err { OnErr result (token.new ≡ token.old) }
{
    if token.up {
        token.stacks.fix_in()?;
        token.wire = b;
        return Ok(true);
    }
    if b == token.wire && token.stacks.fix_out() {
        token.wire = w;
        return Ok(true);
    }
    if x == token.wire && token.stacks.again_in()? {
        token.wire = b;
        token.up = true;
        return Ok(true);
    }
    if b == token.wire && token.stacks.again_out()? {
        token.wire = x;
        token.up = true;
        return Ok(true);
    }
    Ok(false)
}

/// A pair: up to the part that the top selects, and down with the mark of the part.
pub(crate) fn pair_moves(token: &mut Token, a: u32, b: u32, w: u32) -> Result<bool, AllocError>
    ensures ok { IfOk result (λ made. Goes (plain_at (Pair a b w)) token.old made token.new) }
    ensures err { OnErr result (token.new ≡ token.old) }
{
    if token.up {
        if token.stacks.pop_l() {
            token.wire = a;
            return Ok(true);
        }
        if token.stacks.pop_r() {
            token.wire = b;
            return Ok(true);
        }
        return Ok(false);
    }
    if a == token.wire {
        token.stacks.push_l()?;
        token.wire = w;
        return Ok(true);
    }
    if b == token.wire {
        token.stacks.push_r()?;
        token.wire = w;
        return Ok(true);
    }
    Ok(false)
}

/// Moves a token at the node that takes the left part of a pair.
fn fst_moves(token: &mut Token, a: u32, w: u32) -> Result<bool, AllocError>
    ensures ok { IfOk result (λ made. Goes (plain_at (Proj Left a w)) token.old made token.new) }
    ensures err { OnErr result (token.new ≡ token.old) }
{
    if token.up {
        token.stacks.push_l()?;
        token.wire = a;
        return Ok(true);
    }
    if token.stacks.pop_l() {
        token.wire = w;
        return Ok(true);
    }
    Ok(false)
}

/// Moves a token at the node that takes the right part of a pair.
fn snd_moves(token: &mut Token, a: u32, w: u32) -> Result<bool, AllocError>
    ensures ok { IfOk result (λ made. Goes (plain_at (Proj Right a w)) token.old made token.new) }
    ensures err { OnErr result (token.new ≡ token.old) }
{
    if token.up {
        token.stacks.push_r()?;
        token.wire = a;
        return Ok(true);
    }
    if token.stacks.pop_r() {
        token.wire = w;
        return Ok(true);
    }
    Ok(false)
}

/// Moves a token at the node that takes the part of a pair on this side.
pub(crate) fn proj_moves(token: &mut Token, side: Side, a: u32, w: u32) -> Result<bool, AllocError>
    ensures ok { IfOk result (λ made. Goes (plain_at (Proj side a w)) token.old made token.new) }
    ensures err { OnErr result (token.new ≡ token.old) }
{
    match side {
        Side::Left => fst_moves(token, a, w),
        Side::Right => snd_moves(token, a, w),
    }
}
