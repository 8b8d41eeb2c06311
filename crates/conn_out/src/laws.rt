//! Laws of projections, which have empty bodies.

ghost use Rattle.conn_out.specs.Laws.{FrontsProject, LinesTellOn, LastIsTold, OthersTellOn};

/// Wherever a projection is cut off, what is left projects the first of its messages.
pub fn fronts_project()
    ensures law { FrontsProject }
{}

/// A text that tells of some messages, and the lines of more behind it, tell of all of them.
pub fn lines_tell_on()
    ensures law { LinesTellOn }
{}

/// With a line of what the peer did not apply, or of how a connection ended, it tells of the same messages.
pub fn others_tell_on()
    ensures law { OthersTellOn }
{}

/// The last message of which a projection tells is the last of its messages.
pub fn last_is_told()
    ensures law { LastIsTold }
{}
