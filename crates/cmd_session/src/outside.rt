//! The devices of a session.

/// The devices of a session, which come back with its status.
pub struct SessionOutside<S, K, D, N, C> {
    pub config: S,
    pub input: S,
    pub out: K,
    /// The disk of the outbox.
    pub out_disk: D,
    /// The disk of the inbox.
    pub in_disk: D,
    pub dialer: N,
    pub clock: C,
}

/// The devices that a life is lived on.
pub struct Live<K, N, C> {
    pub out: K,
    pub dialer: N,
    pub clock: C,
}

/// What a life over boxes is lived on: OUT, the dialer and the clock, and the boxes.
pub struct OverBoxes<K, N, C, O, I> {
    pub live: Live<K, N, C>,
    pub outbox: O,
    pub inbox: I,
}
