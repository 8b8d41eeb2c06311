//! A served life, and the connections of strangers in it.

ghost use Rattle.stranger_lives.specs.Lives.{StrangersChangeNothing};

use jr_dated::Journal;
use jr_kept::Inbox;

/// A connection of a served life whose link gave no frame with the keys adds no record, and nothing is delivered of it, whatever the inboxes of
/// this kind, where the disks of the outboxes tell their content.
pub fn strangers_change_nothing<O: Journal, I: Journal>(inbox: &Inbox<I>)
    ensures law { StrangersChangeNothing O.tells inbox.now }
{}
