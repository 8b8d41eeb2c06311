//! Connections that are lists of turns, and lives of them.

ghost use Rattle.turn_laws.specs.Legs.{TurnsRun, RefusedWaits, HeldAwaits, TriedAdds, SentAreWritten, GivenUpBegins};
ghost use Rattle.turn_laws.specs.Came.{GivenCame};
ghost use Rattle.turn_laws.specs.Lives.{TurnsServe, TurnsRefused, TurnsRefusedHeld, TurnsRefusedTail};

/// A connection that is a list of turns may run, with the frames that the link took whole.
pub fn turns_run()
    ensures law { TurnsRun }
{}

/// Behind a turn that was cut short at a frame whose act is a record, that frame waits for its act.
pub fn refused_waits()
    ensures law { RefusedWaits }
{}

/// Behind a turn that was cut short at a held message, the inbox awaits that message.
pub fn held_awaits()
    ensures law { HeldAwaits }
{}

/// Behind a turn that was cut short calls may come that add what a failed call of the inbox's disk tried.
pub fn tried_adds()
    ensures law { TriedAdds }
{}

/// The frames that came in the turns of a connection are the first of the bytes that the link gave.
pub fn given_came()
    ensures law { GivenCame }
{}

/// A life whose connections are lists of turns keeps on them what the session model asks of it.
pub fn turns_serve()
    ensures law { TurnsServe }
{}

/// A life whose connections are lists of turns keeps this also where on the last connection the append of a record failed.
pub fn turns_refused()
    ensures law { TurnsRefused }
{}

/// And so where the append of the record of a held message failed.
pub fn turns_refused_held()
    ensures law { TurnsRefusedHeld }
{}

/// And so where a call of the disk failed that was to make several records stable.
pub fn turns_refused_tail()
    ensures law { TurnsRefusedTail }
{}

/// The bytes that the link took in the turns of a connection are the first of those written on it, and those of the frames that
/// it took whole are the first of these.
pub fn sent_are_written()
    ensures law { SentAreWritten }
{}

/// A connection that begins behind one that was given up begins as it would behind its turns.
pub fn given_up_begins()
    ensures law { GivenUpBegins }
{}
