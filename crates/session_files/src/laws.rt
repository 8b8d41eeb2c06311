//! What the definitions of a session's words say.

ghost use Rattle.session_files.specs.Samples.{SessionSample};
ghost use Rattle.session_files.specs.Words.{OneSession};

/// Words say one session at most, and an example of each.
pub fn one_session()
    ensures law { OneSession }
    ensures sample { SessionSample }
{}
