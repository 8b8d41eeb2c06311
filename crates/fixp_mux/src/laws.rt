//! The laws of several sessions on one transport, over any calls in any order.
//! Each function has an empty body; its clause is a statement about the definitions that the calls of this crate meet.

ghost use Rattle.fixp_mux.specs.Context.{ContextIsSpelled, ContextNames};
ghost use Rattle.fixp_mux.specs.Laws.{APumpHappens, BelongsToOne, PartByLastContext, SessionsApart};

/// A frame names the session whose Context it spells, and no other frame names one.
pub fn context_is_spelled()
    ensures law { ContextIsSpelled }
{}

/// A Context that is written names its session.
pub fn context_names()
    ensures law { ContextNames }
{}

/// Whether a frame belongs to a session is decided by the last Context before it, and by nothing else.
pub fn part_by_last_context()
    ensures law { PartByLastContext }
{}

/// A frame belongs to one session at most: the one that was named last.
pub fn belongs_to_one()
    ensures law { BelongsToOne }
{}

/// Whatever calls were made, a session receives the bytes of its own part of the frames given out and no others, and its part of the
/// frames written is what it sent.
pub fn sessions_apart()
    ensures law { SessionsApart }
{}

/// One pump is one of the calls that `sessions_apart` speaks of; what a link's `recv` and `send` and a `release` do is said in its words.
pub fn a_pump_happens()
    ensures law { APumpHappens }
{}
