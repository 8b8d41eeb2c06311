//! Laws of the verdicts, which hold of the definitions alone.

ghost use Rattle.conn_keys.specs.Laws.{FewWait, VerdictsStand, RejectsAsTheSession};
ghost use Rattle.conn_keys.specs.Rows.{TheRows};
ghost use Rattle.conn_keys.specs.Samples.{VerdictsSample};

/// Who waits has given fewer bytes than are looked at.
pub fn few_wait()
    ensures law { FewWait }
{}

/// A verdict stands, whatever comes behind the bytes on which it was given.
pub fn verdicts_stand()
    ensures law { VerdictsStand }
{}

/// Who is rejected at the door is rejected so by the session, where it was negotiated and waits for its client.
pub fn rejects_as_the_session()
    ensures law { RejectsAsTheSession }
{}

/// The rejects, row by row.
pub fn the_rows()
    ensures law { TheRows }
{}

/// The verdicts, tried on bytes.
pub fn verdicts_sample()
    ensures law { VerdictsSample }
{}
