//! A session in the order of time: what its steps make of both ends, as laws with empty bodies.
//! They carry the guarantee to every moment at which the lives keep their contracts as far as they have come.

ghost use Rattle.session_model.specs.Moments.{HistoryBegins, HistoryIsSession};

/// Every beginning of a session history is one, and the lives at that moment go on in the whole.
pub fn history_begins()
    ensures law { HistoryBegins }
{}

/// The lives and connections that a history comes to are a session, where each life keeps its contract as far as it has come.
pub fn history_is_session()
    ensures law { HistoryIsSession }
{}
