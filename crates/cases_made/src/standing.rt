//! Where an end stands between two turns.

ghost use Rattle.std.specs.Prelude.{◌≡◌};

use conn_loop::{TurnEnd, TurnFault};

/// Where an end stands.
#[derive(Clone, Copy, PartialEq, Eq)]
pub enum Standing {
    /// No connection was begun, or the last one has ended: the next may begin.
    Over,
    /// A connection goes on.
    Open,
    /// A turn failed otherwise than by its link: nothing follows.
    GivenUp,
}

impl Standing {
    ghost use Rattle.cases_made.specs.Driving.{standing_of};

    /// Where an end stands behind a turn that answered so.
    pub(crate) fn behind(answer: Result<TurnEnd, TurnFault>) -> Standing
        ensures { result ≡ standing_of answer }
    {
        match answer {
            Ok(TurnEnd::Go) => Standing::Open,
            Ok(TurnEnd::Ended(_)) | Err(TurnFault::Link) => Standing::Over,
            Err(
                TurnFault::Inbox
                | TurnFault::Outbox
                | TurnFault::Changed { .. }
                | TurnFault::Broken
                | TurnFault::Full { .. }
                | TurnFault::Memory,
            ) => Standing::GivenUp,
        }
    }
}
