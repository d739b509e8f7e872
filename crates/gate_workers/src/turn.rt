//! What a bench answers a worker.

/// What a worker is told to do.
#[derive(Drop)]
pub enum Turn<P> {
    /// To work this piece.
    Piece(P),
    /// To ask again after the next booking.
    Pause,
    /// To go home.
    Over,
}
