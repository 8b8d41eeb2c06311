//! The laws of the receiver: what it adds to an inbox over any list of announcements and messages, and what its runs are.
//! Each function has an empty body; its clause is a statement about the definitions that the receiver's calls meet.

ghost use Rattle.flow_idem.specs.Laws.{GrowsIdempotent, MissesTheJumps, FollowsRecords, RunsAreWhole, RunsAreOne};

/// An inbox that records what is jumped over and what is applied grows as an idempotent one.
pub fn grows_idempotent()
    ensures law { GrowsIdempotent }
{}

/// The numbers that are missing then are exactly those jumped over.
pub fn misses_the_jumps()
    ensures law { MissesTheJumps }
{}

/// The receiver has applied what such an inbox has, and waits for the same number.
pub fn follows_records()
    ensures law { FollowsRecords }
{}

/// The runs of some numbers have all of them, in order, and no two of them could be one.
pub fn runs_are_whole()
    ensures law { RunsAreWhole }
{}

/// There is no other way to tell the same numbers by such runs.
pub fn runs_are_one()
    ensures law { RunsAreOne }
{}
