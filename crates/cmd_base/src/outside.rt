//! The devices of a run.

/// The six devices of a run, which come back with its status.
pub struct Outside<S, K, D> {
    pub config: S,
    pub input: S,
    pub wire: K,
    pub out: K,
    /// The disk of the outbox.
    pub out_disk: D,
    /// The disk of the inbox.
    pub in_disk: D,
}
