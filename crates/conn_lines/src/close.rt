//! How a connection came to its end.

use fixp_replies::Ending;

/// How a connection came to its end.
#[derive(Clone, Copy)]
pub enum Close {
    /// The session ended it, in this way.
    Ended(Ending),
    /// Its link failed before that.
    LinkFault,
}
