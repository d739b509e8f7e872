//! What a worker is handed.

use token_pool::Piece;

/// A piece of work of one job.
#[derive(Drop)]
pub struct BatchPiece {
    /// The job's number, from 0.
    pub job: u32,
    /// The ticket with its token.
    pub piece: Piece,
}

/// What a worker gets that asks for work: a ticket of some job, which it holds from now on, or why there is none.
#[derive(Drop)]
pub enum BatchTaken {
    /// A ticket of the job of this number, which the worker holds from now on.
    Token(u32, Piece),
    /// Nothing is free now, and some job isn't over.
    Pause,
    /// Each job is over.
    Ended,
    /// The batch was stopped.
    Stopped,
}
