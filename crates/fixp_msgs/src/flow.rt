//! The kinds of flow that one direction of a session may have.

ghost use Rattle.std.specs.Prelude.{◌≡◌};

/// How the messages of one direction are delivered (FIXP 1.1, "Message flow types").
#[derive(Clone, Copy, Debug, PartialEq, Eq)]
pub enum Flow {
    /// Exactly once: what was lost is sent again.
    Recoverable,
    /// At most once, with notice of what was lost.
    Idempotent,
    /// Best effort.
    Unsequenced,
    /// No application messages in this direction.
    None,
}

impl Flow {
    ghost use Rattle.fixp_msgs.specs.Flow.{flow_code};

    /// The number that stands for the flow in a message, 1 to 4 (this project's profile).
    pub fn code(self) -> u8
        ensures { result ≡ flow_code self }
    {
        match self {
            Flow::Recoverable => 1,
            Flow::Idempotent => 2,
            Flow::Unsequenced => 3,
            Flow::None => 4,
        }
    }
}
