//! What became of a frame that was read.

/// What became of a frame.
#[derive(Clone, Copy)]
pub(crate) enum Routed {
    /// Its session has it.
    Gave,
    /// It was a Context, or its session was released.
    Passed,
    /// It stays: its session has no room for it.
    Full,
    /// It stays: no Context stands before it.
    NoContext,
    /// It stays: a Context of no session of these.
    OtherSession,
    /// It stays: a Context whose block is too short, or is not whole.
    Malformed,
}
