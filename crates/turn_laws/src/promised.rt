//! What the contract of the loop's turn says is a turn of the laws over connections. Each function has an empty body; its clause
//! is a statement about the definitions that the contract is written in.

ghost use Rattle.turn_laws.specs.Turned.{TurnIsOne, CutIsOne};

use jr_dated::Journal;
use jr_kept::Inbox;

/// A turn in time that answers, and one whose link failed, is a whole turn, whatever the inboxes of this kind: the inbox gained what
/// that adds, the news are what it tells, and the link gave and took what it received and sent. What it sent of an outbox whose disk
/// tells its content is what was seen of it.
pub fn turn_is_one<O: Journal, I: Journal>(inbox: &Inbox<I>)
    ensures law { TurnIsOne O.tells inbox.now }
{}

/// A turn in time at any other fault had not begun, or was cut short: its link gave what it received in one call and took nothing,
/// the inbox gained what its frames add, and the news are what they tell.
pub fn cut_is_one<I: Journal>(inbox: &Inbox<I>)
    ensures law { CutIsOne inbox.now }
{}
