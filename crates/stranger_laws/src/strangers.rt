//! Connections of strangers.

ghost use Rattle.stranger_laws.specs.Strangers.{StrangerIsDeaf, StrangerLeaves, KeylessIsStrange, NoFrameIsStrange, FrameIsStrange, NoneCame, StrangeTurns, KeylessTurns};

/// Whatever calls come on a connection, where no frame that came opens the session, nothing of the peer's flow is accepted and no
/// entry of the outbox is written.
pub fn stranger_is_deaf()
    ensures law { StrangerIsDeaf }
{}

/// Where no frame that came gives the keys, no record is added, and what is recorded stays.
pub fn stranger_leaves()
    ensures law { StrangerLeaves }
{}

/// Who gives no keys is a stranger.
pub fn keyless_is_strange()
    ensures law { KeylessIsStrange }
{}

/// So is who gives no whole frame.
pub fn no_frame_is_strange()
    ensures law { NoFrameIsStrange }
{}

/// So is who gives the frame of a message without the keys.
pub fn frame_is_strange()
    ensures law { FrameIsStrange }
{}

/// What came in the first of the frames that a stranger gave opens nothing.
pub fn none_came()
    ensures law { NoneCame }
{}

/// Over turns nothing goes over a connection whose link gave no frame that opens the session.
pub fn strange_turns()
    ensures law { StrangeTurns }
{}

/// And one whose link gave no frame with the keys adds no record.
pub fn keyless_turns()
    ensures law { KeylessTurns }
{}
