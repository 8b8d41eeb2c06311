//! What holds of a connection at every moment, whatever calls come.

ghost use Rattle.connection_laws.specs.Courses.{StateIsRun};
ghost use Rattle.connection_laws.specs.Standing.{ConnectionBegins, BeginsAgain, CallKeeps, CallsKeep, CallsGoOn, StandsLonger, WaitingGrows};

/// A connection comes to the state to which its calls bring the machine.
pub fn state_is_run()
    ensures law { StateIsRun }
{}

/// A connection that begins stands: nothing is accepted, and its first message is accounted for.
pub fn connection_begins()
    ensures law { ConnectionBegins }
{}

/// A connection that begins behind another stands, over what that has left.
pub fn begins_again()
    ensures law { BeginsAgain }
{}

/// Each call that may come on a connection keeps it standing.
pub fn call_keeps()
    ensures law { CallKeeps }
{}

/// Any list of calls keeps a connection standing, where each may come.
pub fn calls_keep()
    ensures law { CallsKeep }
{}

/// What a connection has come to begins what it comes to later.
pub fn calls_go_on()
    ensures law { CallsGoOn }
{}

/// A connection that stands over an outbox stands over each longer one.
pub fn stands_longer()
    ensures law { StandsLonger }
{}

/// The inbox is grown over the event of a frame that waits, too, once it has the records of its act.
pub fn waiting_grows()
    ensures law { WaitingGrows }
{}
