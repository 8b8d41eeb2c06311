//! The devices of a session that is fed.

/// The devices of a session that is fed, which come back with its status.
pub struct FeedOutside<S, I, K, A, D, N, C> {
    pub config: S,
    /// What is read as it comes.
    pub input: I,
    /// What keeps the lines of earlier runs, or keeps nothing.
    pub out: K,
    /// What is told what became of the lines of INPUT.
    pub accepted: A,
    /// The disk of the outbox.
    pub out_disk: D,
    /// The disk of the inbox.
    pub in_disk: D,
    pub dialer: N,
    pub clock: C,
}
