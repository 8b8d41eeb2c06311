//! The laws of the receiver: what it delivers over any list of announcements and messages.
//! Each function has an empty body; its clause is a statement about the definitions that the receiver's calls meet.

ghost use Rattle.flow_recover.specs.Laws.{DeliversChain, GrowsRecoverable};

/// What is delivered is the chain of the numbered messages.
pub fn delivers_chain()
    ensures law { DeliversChain }
{}

/// An inbox that applies what is delivered grows as a recoverable one.
pub fn grows_recoverable()
    ensures law { GrowsRecoverable }
{}
