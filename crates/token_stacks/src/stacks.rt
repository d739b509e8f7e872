//! Both stacks of a token, and the table of their calls.

ghost use Rattle.std.specs.Prelude.{◌≡◌, ◌↔◌, ◌⊎◌, [], ◌∷◌, OnOk, OnErr, IfOk, IsTrue};
ghost use Rattle.token_stacks.specs.Signatures.{R, L, S, star};
ghost use Rattle.token_stacks.specs.Loads.{load};
ghost use Rattle.token_stacks.specs.Words.{box_words};
ghost use Rattle.token_stacks.specs.WorkWords.{work_words};
ghost use Rattle.token_stacks.specs.Rows.{Follows, r_popped, l_popped, star_popped, into_argument, out_of_argument, left_wrapped};
ghost use Rattle.token_stacks.specs.Rows.{right_wrapped, left_unwrapped, right_unwrapped, into_box, out_of_box, out_of_door, into_door};
ghost use Rattle.token_stacks.specs.Rows.{out_of_fix, into_again, out_of_again};
ghost use Rattle.token_stacks.specs.Tops.{symbol_popped, wrapped, unwrapped};

use crate::BoxStack;
use crate::held::{Held, again_sizes, box_size, front, pair_sizes, top_size};
use crate::words::{
    AGAIN, LEFT, PAIR, RIGHT, SIGNATURE, STAR, SYMBOL_L, SYMBOL_R, append, turn, write_three,
};
use std::alloc::{AllocError, Global};
use std::marker::Model;

/// The work stack and the box stack of a token, each with its top first.
///
/// In the rows below `m` is the rest of the work stack, `t` that of the box stack, and `s` and `u` are signatures. A call answers
/// `false` exactly when it finds another shape; then the stacks stay as they were.
#[derive(Drop)]
pub struct Stacks {
    held: Held,
}

impl Model for Stacks {
    ghost use Rattle.token_stacks.specs.Loads.{Load};
    ghost use Rattle.token_stacks.specs.Codes.{load_code};
    ghost use Rattle.token_stacks.specs.Reading.{load_of};
    ghost use Rattle.token_stacks.specs.Tops.{IsHeld};

    ghost Value = { Load };

    ghost coded = { load_code };

    ghost view = { λ a. load_of a.held.words.items a.held.border };

    ghost invariant = { λ a. IsHeld a.held.words.items a.held.border };
}

impl Stacks {
    /// Both stacks empty. Takes no memory.
    pub fn empty(alloc: Global) -> Stacks
        ensures { result ≡ load [] [] }
    {
        Stacks {
            held: Held {
                words: Vec::new(alloc),
                border: 0,
            },
        }
    }

    /// Equal stacks, in memory of their own.
    ///
    /// # Errors
    ///
    /// Only where memory runs out.
    pub fn copy(&self) -> Result<Stacks, AllocError>
        ensures { IfOk result (λ a. a ≡ self.now) }
    {
        Ok(Stacks {
            held: Held {
                words: self.held.words.clone()?,
                border: self.held.border,
            },
        })
    }

    /// Whether both stacks are the same lists.
    pub fn same(&self, other: &Stacks) -> bool
        ensures { IsTrue result ↔ (self.now ≡ other.now) }
    {
        self.held.border == other.held.border && self.held.words == other.held.words
    }

    /// The work stack as words, from its bottom: `R` is 5, `L` is 6, and a signature is its body, the length of its body, and 7. The
    /// body of `*` is 0; that of `l s` and `r s` is the body of `s` with 1 or 2 behind it; that of `<s,u>` and `y(s,u)` is the body of `s`,
    /// the body of `u`, the length of the latter, and 3 or 4.
    pub fn work_words(&self) -> &[u64]
        ensures { result.now ≡ work_words self.now.work }
    {
        &self.held.words[self.held.border..]
    }

    /// The box stack as words, from its bottom: each signature is its body, as on the work stack, and the length of its body.
    pub fn box_words(&self) -> &[u64]
        ensures { result.now ≡ box_words self.now.boxes }
    {
        &self.held.words[..self.held.border]
    }

    /// The box stack alone.
    pub fn boxes(&self) -> &BoxStack
        ensures { result.now ≡ self.now.boxes }
    {
        front(&self.held)
    }

    /// Whether the work stack is empty.
    pub fn work_is_empty(&self) -> bool
        ensures { IsTrue result ↔ (self.now.work ≡ []) }
    {
        self.held.words.len() == self.held.border
    }

    /// `m` becomes `R.m`.
    ///
    /// # Errors
    ///
    /// Only where memory runs out; then the stacks stay.
    pub fn push_r(&mut self) -> Result<(), AllocError>
        ensures ok { OnOk result (self.new ≡ load (R ∷ self.old.work) self.old.boxes) }
        ensures err { OnErr result (self.new ≡ self.old) }
    {
        self.held.words.push(SYMBOL_R)?;
        Ok(())
    }

    /// `m` becomes `L.m`.
    ///
    /// # Errors
    ///
    /// Only where memory runs out; then the stacks stay.
    pub fn push_l(&mut self) -> Result<(), AllocError>
        ensures ok { OnOk result (self.new ≡ load (L ∷ self.old.work) self.old.boxes) }
        ensures err { OnErr result (self.new ≡ self.old) }
    {
        self.held.words.push(SYMBOL_L)?;
        Ok(())
    }

    /// `m` becomes `*.m`.
    ///
    /// # Errors
    ///
    /// Only where memory runs out; then the stacks stay.
    pub fn push_star(&mut self) -> Result<(), AllocError>
        ensures ok { OnOk result (self.new ≡ load (S star ∷ self.old.work) self.old.boxes) }
        ensures err { OnErr result (self.new ≡ self.old) }
    {
        append(&mut self.held.words, &[STAR], &[1, SIGNATURE])?;
        Ok(())
    }

    /// `R.m` becomes `m`.
    pub fn pop_r(&mut self) -> bool
        ensures { Follows r_popped self.old result self.new }
    {
        self.pop_symbol(SYMBOL_R)
    }

    /// `L.m` becomes `m`.
    pub fn pop_l(&mut self) -> bool
        ensures { Follows l_popped self.old result self.new }
    {
        self.pop_symbol(SYMBOL_L)
    }

    /// `L.s.m` becomes `s.m`: from a function to its argument.
    pub fn argument_in(&mut self) -> bool
        ensures { Follows into_argument self.old result self.new }
    {
        let n = self.held.words.len();
        if n - self.held.border < 2
            || self.held.words[n - 1] != SYMBOL_L
            || self.held.words[n - 2] != SIGNATURE
        {
            return false;
        }
        self.held.words.truncate(n - 1);
        true
    }

    /// `s.m` becomes `L.s.m`: from an argument to its function.
    ///
    /// # Errors
    ///
    /// Only where memory runs out; then the stacks stay.
    pub fn argument_out(&mut self) -> Result<bool, AllocError>
        ensures ok { IfOk result (λ made. Follows out_of_argument self.old made self.new) }
        ensures err { OnErr result (self.new ≡ self.old) }
    {
        let Some(_) = top_size(&self.held) else {
            return Ok(false);
        };
        self.held.words.push(SYMBOL_L)?;
        Ok(true)
    }

    /// `*.m` becomes `m`.
    pub fn pop_star(&mut self) -> bool
        ensures { Follows star_popped self.old result self.new }
    {
        let Some(size) = top_size(&self.held) else {
            return false;
        };
        if size != 1 {
            return false;
        }
        let n = self.held.words.len();
        self.held.words.truncate(n - 3);
        true
    }

    /// `s.m` becomes `l s.m`.
    ///
    /// # Errors
    ///
    /// Only where memory runs out; then the stacks stay.
    pub fn wrap_left(&mut self) -> Result<bool, AllocError>
        ensures ok { IfOk result (λ made. Follows left_wrapped self.old made self.new) }
        ensures err { OnErr result (self.new ≡ self.old) }
    {
        self.wrap(LEFT)
    }

    /// `s.m` becomes `r s.m`.
    ///
    /// # Errors
    ///
    /// Only where memory runs out; then the stacks stay.
    pub fn wrap_right(&mut self) -> Result<bool, AllocError>
        ensures ok { IfOk result (λ made. Follows right_wrapped self.old made self.new) }
        ensures err { OnErr result (self.new ≡ self.old) }
    {
        self.wrap(RIGHT)
    }

    /// `l s.m` becomes `s.m`.
    pub fn unwrap_left(&mut self) -> bool
        ensures { Follows left_unwrapped self.old result self.new }
    {
        self.unwrap(LEFT)
    }

    /// `r s.m` becomes `s.m`.
    pub fn unwrap_right(&mut self) -> bool
        ensures { Follows right_unwrapped self.old result self.new }
    {
        self.unwrap(RIGHT)
    }

    /// `s.m` at `t` becomes `m` at `s.t`.
    ///
    /// # Errors
    ///
    /// Only where memory runs out; then the stacks stay.
    #[inline(always)]
    pub fn box_in(&mut self) -> Result<bool, AllocError>
        ensures ok { IfOk result (λ made. Follows into_box self.old made self.new) }
        ensures err { OnErr result (self.new ≡ self.old) }
    {
        let Some(size) = top_size(&self.held) else {
            return Ok(false);
        };
        let n = self.held.words.len();
        let end = n - 1;
        self.held.words.truncate(end);
        turn(&mut self.held.words, self.held.border, n - 2 - size, end);
        self.held.border += size + 1;
        Ok(true)
    }

    /// `m` at `s.t` becomes `s.m` at `t`.
    ///
    /// # Errors
    ///
    /// Only where memory runs out; then the stacks stay.
    #[inline(always)]
    pub fn box_out(&mut self) -> Result<bool, AllocError>
        ensures ok { IfOk result (λ made. Follows out_of_box self.old made self.new) }
        ensures err { OnErr result (self.new ≡ self.old) }
    {
        let Some(size) = box_size(&self.held) else {
            return Ok(false);
        };
        let n = self.held.words.len();
        let from = self.held.border - 1 - size;
        self.held.words.push(SIGNATURE)?;
        turn(&mut self.held.words, from, self.held.border, n);
        self.held.border = from;
        Ok(true)
    }

    /// `u.m` at `s.t` becomes `<s,u>.m` at `t`.
    ///
    /// # Errors
    ///
    /// Only where memory runs out; then the stacks stay.
    #[inline(always)]
    pub fn door_out(&mut self) -> Result<bool, AllocError>
        ensures ok { IfOk result (λ made. Follows out_of_door self.old made self.new) }
        ensures err { OnErr result (self.new ≡ self.old) }
    {
        let Some(second) = top_size(&self.held) else {
            return Ok(false);
        };
        let Some(first) = box_size(&self.held) else {
            return Ok(false);
        };
        let n = self.held.words.len();
        let at = n - 2 - second;
        let from = self.held.border - 1 - first;
        self.held.words.push(SIGNATURE)?;
        turn(&mut self.held.words, from, self.held.border, at);
        turn(&mut self.held.words, at - 1, at, n - 2);
        write_three(
            &mut self.held.words,
            n - 3,
            second as u64,
            PAIR,
            (first + second + 2) as u64,
        );
        self.held.border = from;
        Ok(true)
    }

    /// `<s,u>.m` at `t` becomes `u.m` at `s.t`.
    ///
    /// # Errors
    ///
    /// Only where memory runs out; then the stacks stay.
    #[inline(always)]
    pub fn door_in(&mut self) -> Result<bool, AllocError>
        ensures ok { IfOk result (λ made. Follows into_door self.old made self.new) }
        ensures err { OnErr result (self.new ≡ self.old) }
    {
        let Some((first, second)) = pair_sizes(&self.held) else {
            return Ok(false);
        };
        let n = self.held.words.len();
        let at = n - 4 - second;
        turn(&mut self.held.words, at, n - 4, n - 3);
        self.held.words[at] = first as u64;
        write_three(
            &mut self.held.words,
            n - 3,
            second as u64,
            SIGNATURE,
            SIGNATURE,
        );
        self.held.words.truncate(n - 1);
        turn(&mut self.held.words, self.held.border, at - first, at + 1);
        self.held.border += first + 1;
        Ok(true)
    }

    /// `m` at `t` becomes `m` at `*.t`.
    ///
    /// # Errors
    ///
    /// Only where memory runs out; then the stacks stay.
    #[inline(always)]
    pub fn fix_in(&mut self) -> Result<(), AllocError>
        ensures ok { OnOk result (self.new ≡ load self.old.work (star ∷ self.old.boxes)) }
        ensures err { OnErr result (self.new ≡ self.old) }
    {
        let n = self.held.words.len();
        append(&mut self.held.words, &[STAR], &[1])?;
        turn(&mut self.held.words, self.held.border, n, n + 2);
        self.held.border += 2;
        Ok(())
    }

    /// `m` at `*.t` becomes `m` at `t`.
    #[inline(always)]
    pub fn fix_out(&mut self) -> bool
        ensures { Follows out_of_fix self.old result self.new }
    {
        let Some(size) = box_size(&self.held) else {
            return false;
        };
        if size != 1 {
            return false;
        }
        let n = self.held.words.len();
        let from = self.held.border - 2;
        turn(&mut self.held.words, from, self.held.border, n);
        self.held.words.truncate(n - 2);
        self.held.border = from;
        true
    }

    /// `s.m` at `u.t` becomes `m` at `y(u,s).t`.
    ///
    /// # Errors
    ///
    /// Only where memory runs out; then the stacks stay.
    #[inline(always)]
    pub fn again_in(&mut self) -> Result<bool, AllocError>
        ensures ok { IfOk result (λ made. Follows into_again self.old made self.new) }
        ensures err { OnErr result (self.new ≡ self.old) }
    {
        let Some(second) = top_size(&self.held) else {
            return Ok(false);
        };
        let Some(first) = box_size(&self.held) else {
            return Ok(false);
        };
        let n = self.held.words.len();
        let from = self.held.border;
        turn(&mut self.held.words, from, n - 2 - second, n);
        turn(&mut self.held.words, from - 1, from, from + second);
        write_three(
            &mut self.held.words,
            from - 1 + second,
            second as u64,
            AGAIN,
            (first + second + 2) as u64,
        );
        self.held.border = from + second + 2;
        Ok(true)
    }

    /// `m` at `y(u,s).t` becomes `s.m` at `u.t`.
    ///
    /// # Errors
    ///
    /// Only where memory runs out; then the stacks stay.
    #[inline(always)]
    pub fn again_out(&mut self) -> Result<bool, AllocError>
        ensures ok { IfOk result (λ made. Follows out_of_again self.old made self.new) }
        ensures err { OnErr result (self.new ≡ self.old) }
    {
        let Some((first, second)) = again_sizes(&self.held) else {
            return Ok(false);
        };
        let n = self.held.words.len();
        let end = self.held.border;
        let at = end - 3 - second;
        turn(&mut self.held.words, at, end - 3, end - 2);
        self.held.words[at] = first as u64;
        self.held.words[end - 2] = second as u64;
        self.held.words[end - 1] = SIGNATURE;
        turn(&mut self.held.words, at + 1, end, n);
        self.held.border = at + 1;
        Ok(true)
    }

    /// Takes off the symbol of this word, `R` or `L`.
    fn pop_symbol(&mut self, word: u64) -> bool
        requires { (word ≡ 5) ⊎ (word ≡ 6) }
        ensures { Follows (symbol_popped word) self.old result self.new }
    {
        let n = self.held.words.len();
        if n == self.held.border || self.held.words[n - 1] != word {
            return false;
        }
        self.held.words.truncate(n - 1);
        true
    }

    /// Puts the mark `l` or `r` before the signature on top.
    fn wrap(&mut self, mark: u64) -> Result<bool, AllocError>
        requires { (mark ≡ 1) ⊎ (mark ≡ 2) }
        ensures ok { IfOk result (λ made. Follows (wrapped mark) self.old made self.new) }
        ensures err { OnErr result (self.new ≡ self.old) }
    {
        let Some(size) = top_size(&self.held) else {
            return Ok(false);
        };
        let n = self.held.words.len();
        self.held.words.push(SIGNATURE)?;
        self.held.words[n - 2] = mark;
        self.held.words[n - 1] = size as u64 + 1;
        Ok(true)
    }

    /// Takes that mark off the signature on top.
    fn unwrap(&mut self, mark: u64) -> bool
        requires { (mark ≡ 1) ⊎ (mark ≡ 2) }
        ensures { Follows (unwrapped mark) self.old result self.new }
    {
        let Some(size) = top_size(&self.held) else {
            return false;
        };
        let n = self.held.words.len();
        if self.held.words[n - 3] != mark {
            return false;
        }
        self.held.words[n - 3] = size as u64 - 1;
        self.held.words[n - 2] = SIGNATURE;
        self.held.words.truncate(n - 1);
        true
    }
}
