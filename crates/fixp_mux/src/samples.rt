//! Worked rows that the definitions compute, so that their words are not empty.
//! Each function has an empty body; its clause is a row written out in `specs/Samples.antt`.

ghost use Rattle.fixp_mux.specs.Samples.{ContextRow, OneSessionRow, SaysRow, TwoSessionsRow, WithContextRow};

/// The bytes of a Context.
pub fn context_sample()
    ensures row { ContextRow }
{}

/// A recorded client behind one Context, and its answer.
pub fn one_session_sample()
    ensures row { OneSessionRow }
{}

/// Two recorded clients whose frames alternate, each behind a Context.
pub fn two_sessions_sample()
    ensures row { TwoSessionsRow }
{}

/// What is a Context, and what is none or is malformed.
pub fn says_sample()
    ensures row { SaysRow }
{}

/// Where a Context is written.
pub fn with_context_sample()
    ensures row { WithContextRow }
{}
