//! A bench of numbers.

ghost use Rattle.std.specs.Prelude.{◌≡◌};

use gate_workers::{Bench, Turn};
use std::alloc::{AllocError, Global};
use testing_gates::Counting;

/// Hands out the numbers from `left` down to 1, and adds up what comes back. It pauses while the last numbers are out.
#[derive(Drop)]
pub struct Numbers {
    pub left: u32,
    pub held: u32,
    pub sum: u64,
    /// Below how many numbers left memory is wanting.
    pub wants_below: u32,
    pub stops: u32,
    /// How often a turn was asked for after that.
    pub asked_after: u32,
}

impl Numbers {
    /// So many numbers, with memory wanting once fewer than the second are left.
    pub fn down_from(left: u32, wants_below: u32) -> Numbers {
        Numbers {
            left,
            held: 0,
            sum: 0,
            wants_below,
            stops: 0,
            asked_after: 0,
        }
    }
}

impl Bench for Numbers {
    type Piece = u32;

    type Made = u64;

    type Tool = u64;

    ghost makes = { λ _ _ _. Unit {0} };

    ghost gives = { λ _ _ _ _. Unit {0} };

    ghost takes_in = { λ _ _ _ _. Unit {0} };

    ghost halts = { λ _ _. Unit {0} };

    fn turn(&mut self, _worker: u32) -> Result<Turn<u32>, AllocError> {
        if self.stops > 0 {
            self.asked_after = self.asked_after.saturating_add(1);
            return Ok(Turn::Over);
        }
        if self.left > 0 {
            let n = self.left;
            self.left -= 1;
            self.held = self.held.saturating_add(1);
            return Ok(Turn::Piece(n));
        }
        if self.held > 0 {
            return Ok(Turn::Pause);
        }
        Ok(Turn::Over)
    }

    fn work(_alloc: Global, tool: &u64, piece: u32) -> Result<u64, AllocError> {
        Ok(tool.wrapping_mul(u64::from(piece)))
    }

    fn hand_in(&mut self, _worker: u32, made: u64) -> Result<(), AllocError> {
        if self.left < self.wants_below {
            return Err(AllocError);
        }
        self.held = self.held.saturating_sub(1);
        self.sum = self.sum.wrapping_add(made);
        Ok(())
    }

    fn stop(&mut self) {
        self.stops = self.stops.saturating_add(1);
    }
}

/// One piece at a time, whoever takes it: the others sleep, and are told that there is nothing for them. What is made of a piece is how
/// often the gate was passed by then.
#[derive(Drop)]
pub struct Relay {
    pub left: u32,
    pub out: bool,
    /// The sum of what was made.
    pub passed: u64,
}

impl Bench for Relay {
    type Piece = ();

    type Made = u64;

    type Tool = Counting;

    ghost makes = { λ _ _ _. Unit {0} };

    ghost gives = { λ _ _ _ _. Unit {0} };

    ghost takes_in = { λ _ _ _ _. Unit {0} };

    ghost halts = { λ _ _. Unit {0} };

    fn turn(&mut self, _worker: u32) -> Result<Turn<()>, AllocError> {
        if self.out {
            return Ok(Turn::Pause);
        }
        if self.left == 0 {
            return Ok(Turn::Over);
        }
        self.out = true;
        Ok(Turn::Piece(()))
    }

    fn work(_alloc: Global, tool: &Counting, _piece: ()) -> Result<u64, AllocError> {
        Ok(tool.calls())
    }

    fn hand_in(&mut self, _worker: u32, made: u64) -> Result<(), AllocError> {
        self.out = false;
        self.left = self.left.saturating_sub(1);
        self.passed = self.passed.wrapping_add(made);
        Ok(())
    }

    fn stop(&mut self) {
        self.left = 0;
    }

    fn spare(&self) -> u32 {
        if self.out || self.left == 0 { 0 } else { 1 }
    }
}
