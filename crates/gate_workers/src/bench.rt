//! What workers share.

ghost use Rattle.std.specs.Prelude.{◌≡◌, ℕ, IfOk, OnErr};
ghost use Rattle.gate_workers.specs.declared.turn.Turn.{Turn};

use crate::Turn;
use std::alloc::{AllocError, Global};

/// Hands out pieces of work, and takes in what was made of them. It stands behind a lock, and only `work` is called without it.
///
/// Each bench says by relations what its calls do. After want of memory it is as it was.
pub trait Bench: Send + Drop {
    /// What is handed out.
    type Piece: Send + Drop;
    /// What is made of a piece.
    type Made: Send + Drop;
    /// What all workers look at while they work.
    type Tool: Sync;

    /// What may be made of a piece with a tool.
    ghost makes: { Self.Tool → Self.Piece → Self.Made → Type 0 };

    /// What the bench may answer a worker, and the bench afterwards.
    ghost gives: { Self → ℕ → Turn Self.Piece → Self → Type 0 };

    /// The bench after a worker handed something in.
    ghost takes_in: { Self → ℕ → Self.Made → Self → Type 0 };

    /// The bench after it was stopped.
    ghost halts: { Self → Self → Type 0 };

    /// Asks what a worker is to do.
    fn turn(&mut self, worker: u32) -> Result<Turn<Self::Piece>, AllocError>
        ensures ok { IfOk result (λ turn. gives self.old worker turn self.new) }
        ensures err { OnErr result (self.new ≡ self.old) };

    /// Works a piece, with no bench in hand.
    fn work(alloc: Global, tool: &Self::Tool, piece: Self::Piece) -> Result<Self::Made, AllocError>
        ensures { IfOk result (λ made. makes tool.now piece made) };

    /// Takes in what a worker made.
    fn hand_in(&mut self, worker: u32, made: Self::Made) -> Result<(), AllocError>
        ensures ok { IfOk result (λ _. takes_in self.old worker made self.new) }
        ensures err { OnErr result (self.new ≡ self.old) };

    /// Lets all work end, since a worker met want of memory. Takes none.
    fn stop(&mut self)
        ensures { halts self.old self.new };

    /// How many sleeping workers are worth waking after a booking: as many as there are pieces that turns would hand out now. Where a
    /// bench doesn't say, all are woken. Nothing else rests on the answer.
    fn spare(&self) -> u32 {
        u32::MAX
    }
}
