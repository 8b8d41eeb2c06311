//! The fault that a device answers.

/// The only fault of a device: the call did not do what it was asked for.
#[derive(Clone, Copy, Debug)]
pub struct Failed;
