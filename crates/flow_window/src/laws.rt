//! The laws of a receiver with a window: what it delivers over any announcements and messages, and that its inbox grows as a
//! recoverable one. Each function has an empty body; its clause is a statement about the definitions that the calls meet.

ghost use Rattle.flow_window.specs.Laws.{TakesInOrder, TakesChain, HoldsWhatCame, GrowsWithWindow, DeliversWhatIsTaken, GrowsRecoverable, GrowsLater, FrontByFront, StaysInReach, GapIsMissing};
ghost use Rattle.flow_window.specs.Rows.{EdgeRow, HeldRow, FrontRow, RetransmittedRow, InPartsRow};

/// What is taken of numbered messages has consecutive numbers, from the next one on.
pub fn takes_in_order()
    ensures law { TakesInOrder }
{}

/// At least as many messages are taken as their chain has, which is what a receiver without a window takes.
pub fn takes_chain()
    ensures law { TakesChain }
{}

/// Whatever is taken came, and so did whatever is held.
pub fn holds_what_came()
    ensures law { HoldsWhatCame }
{}

/// An inbox that applies what is taken grows in order, also where some of it was held before.
pub fn grows_with_window()
    ensures law { GrowsWithWindow }
{}

/// What a receiver delivers of announcements, retransmissions and messages is what its window takes of the numbered messages.
pub fn delivers_what_is_taken()
    ensures law { DeliversWhatIsTaken }
{}

/// An inbox that applies what is delivered grows as a recoverable one.
pub fn grows_recoverable()
    ensures law { GrowsRecoverable }
{}

/// It does so over each later part of a connection, which may apply what the parts before it held.
pub fn grows_later()
    ensures law { GrowsLater }
{}

/// What is ready to be applied comes to the front one message after another, as each is dropped.
pub fn front_by_front()
    ensures law { FrontByFront }
{}

/// What is held stays within reach.
pub fn stays_in_reach()
    ensures law { StaysInReach }
{}

/// There is a gap exactly where the number that the inbox waits for was sent live, and is not held.
pub fn gap_is_missing()
    ensures law { GapIsMissing }
{}

/// Worked rows: the window's edge, two messages under one number, the front, a retransmission with messages held behind it,
/// and one that comes in parts.
pub fn window_rows()
    ensures edge { EdgeRow }
    ensures held { HeldRow }
    ensures front { FrontRow }
    ensures retransmitted { RetransmittedRow }
    ensures in_parts { InPartsRow }
{}
