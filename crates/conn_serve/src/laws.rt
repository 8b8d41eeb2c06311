//! A law over the connections of a life.

ghost use Rattle.conn_serve.specs.Laws.{WereAreTurns};

/// The whole turns of a connection are turns one behind another, as the laws over turns speak of them.
pub fn were_are_turns()
    ensures law { WereAreTurns }
{}
