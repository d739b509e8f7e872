//! What a pool keeps of each held ticket, and what a worker is told.

/// A ticket that a worker holds, with the number of moves that are set aside for it.
#[derive(Clone, Copy)]
pub struct Held {
    /// The token's number.
    pub ticket: u32,
    /// How many moves may be booked of it at once: of its own 1 to 64, and more where what it is given for is a branch.
    pub allowance: u32,
}

/// What a worker is told that asks for work: the ticket that it holds from now on, or why there is none.
#[derive(Clone, Copy)]
pub enum Reply {
    /// The pool was stopped.
    Stopped,
    /// The worker holds this.
    Token(Held),
    /// There is an answer, or the whole budget is made and nothing is held.
    Ended,
    /// No live token is free.
    Idle,
    /// A token is free, and the whole budget is made or set aside.
    Reserved,
}

/// What a worker is told that hands in its walk.
#[derive(Clone, Copy)]
pub enum Booked {
    /// Its moves were booked behind so many others.
    Done(u32),
    /// It holds nothing, and nothing was booked.
    NothingHeld,
}
