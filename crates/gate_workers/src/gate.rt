//! What stands between a worker and its piece.

ghost use Rattle.std.specs.Prelude.{ℕ};

/// What a worker passes while it has a piece and not the lock. It sees neither the bench nor the piece.
pub trait Gate: Sync {
    /// What is known once a worker has passed for its turn of that number. A gate need not say anything.
    ghost passes: { Self → ℕ → ℕ → Type 0 } = { λ _ _ _. Unit {0} };

    /// Called before each piece is worked. `turn` is how often this worker has passed before, up to 18446744073709551615, where it stays.
    fn between(&self, worker: u32, turn: u64)
        ensures { passes self.now worker turn };
}

/// A gate that does nothing.
#[derive(Clone, Copy)]
pub struct OpenGate;

impl Gate for OpenGate {
    fn between(&self, _worker: u32, _turn: u64) {}
}
