//! The session guarantee, one function for each flow and one for the senders, with empty bodies.
//! It rests on the contract of one end over one life, and on the chaining and linking that `Session` names.

ghost use Rattle.session_model.specs.Guarantee.{SessionTurnsRound, SessionBegins, RecoverableGuarantee, IdempotentGuarantee, UnsequencedGuarantee, NoFlowGuarantee, SendersGuarantee, ReportsGuarantee};

/// A session seen from its other end is a session, so that each guarantee holds in both directions.
pub fn session_turns_round()
    ensures law { SessionTurnsRound }
{}

/// The first lives of both ends are a session where their connections are linked among themselves. A moment within a life
/// is not in the model.
pub fn session_begins()
    ensures law { SessionBegins }
{}

/// A recoverable inbox is a prefix of its peer's journal, over any lives, disconnects and crashes of either end.
pub fn recoverable_guarantee()
    ensures law { RecoverableGuarantee }
{}

/// An idempotent inbox holds every number below its next exactly once, as applied or as not applied.
pub fn idempotent_guarantee()
    ensures law { IdempotentGuarantee }
{}

/// An unsequenced flow delivers only what was sent, in order and nothing twice.
pub fn unsequenced_guarantee()
    ensures law { UnsequencedGuarantee }
{}

/// Where there is no flow, nothing is delivered.
pub fn no_flow_guarantee()
    ensures law { NoFlowGuarantee }
{}

/// A journal holds each sender's accepted messages once, in order, and what a life closed on at its number.
pub fn senders_guarantee()
    ensures law { SendersGuarantee }
{}

/// What was reported as not applied is a skip record of the inbox, and so was not applied and never will be.
pub fn reports_guarantee()
    ensures law { ReportsGuarantee }
{}
