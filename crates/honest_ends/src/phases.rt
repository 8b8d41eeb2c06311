//! The numbers under way between two ends.

ghost use Rattle.honest_ends.specs.Numbers.{ReaderExpects, WriterKeeps};
ghost use Rattle.honest_ends.specs.PhaseLaws.{PhasesHold};
ghost use Rattle.honest_ends.specs.PhaseSamples.{SessionSample, VersionsSample};

/// In Established a reader that expects what comes breaks no rule of numbers at it, nor of a retransmission where a Retransmission
/// answers its request and no request is rejected, and expects behind it exactly what the message makes of that.
pub fn reader_expects()
    ensures law { ReaderExpects }
{}

/// What an end writes, in reply or at any other call, brings its reader from exactly one past what it was sent to exactly one past what
/// it is sent then; or from whatever it awaits, where the end goes back to the number that it was told.
pub fn writer_keeps()
    ensures law { WriterKeeps }
{}

/// Two ends of one session end a connection by no violation of framing, of the session named, of a phase, of a missing number, or of a
/// flow that is not there; so no request comes while a range is served, and no answer to a finish that was not told.
pub fn phases_hold()
    ensures law { PhasesHold }
{}

/// Two ends go from their beginning to both finishes, over a link that is lost once: each step may come, the entry that was lost is
/// applied once, and both connections end as finished.
pub fn session_sample()
    ensures law { SessionSample }
{}

/// Two ends of version 1 over a link that is lost: on the next one the acceptor tells the number that it expects, the initiator begins with
/// it, and nothing is asked for. Where one of them has version 0, the entry is asked for.
pub fn versions_sample()
    ensures law { VersionsSample }
{}
