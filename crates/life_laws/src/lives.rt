//! A served life, as a life of the connection loop.

ghost use Rattle.life_laws.specs.Lives.{LifeMayTurn, LifeOpens, OpenedInRange, OpenedOpens, ServedIsALoopLife, ServedIsTurned, ServedKeeps};

use jr_dated::Journal;
use jr_kept::Inbox;

/// A life opens where its first connection may begin.
pub fn life_opens<I: Journal>(inbox: &Inbox<I>)
    ensures law { LifeOpens inbox.now }
{}

/// The connections of a served life are turns, one behind another, and the inbox that is left holds what they add, whatever the
/// inboxes of this kind, where the disks of the outboxes tell their content.
pub fn served_is_turned<O: Journal, I: Journal>(inbox: &Inbox<I>)
    ensures law { ServedIsTurned O.tells inbox.now }
{}

/// A served life is one of the loop that keeps on its connections what the session model asks of it, whatever the inboxes of this
/// kind, where the disks of the outboxes tell their content.
pub fn served_keeps<O: Journal, I: Journal>(inbox: &Inbox<I>)
    ensures law { ServedKeeps O.tells inbox.now }
{}

/// A life of the loop may be one of two ends that run the loop, where its numbers are in range, its outbox has payloads of application
/// messages, and its links and its clock are as they have to be.
pub fn life_may_turn()
    ensures law { LifeMayTurn }
{}

/// A life opens where `serve` makes its machine of what the inbox has and the outbox had.
pub fn opened_opens<I: Journal>(inbox: &Inbox<I>)
    ensures law { OpenedOpens inbox.now }
{}

/// The machine that `serve` makes of what the inbox has and the outbox had is in range.
pub fn opened_in_range<I: Journal>(inbox: &Inbox<I>)
    ensures law { OpenedInRange inbox.now }
{}

/// What `serve` ensures of a life is a life of the loop that may be one of two ends that run it, whatever the inboxes of this kind,
/// where the disks of the outboxes tell their content.
pub fn served_is_a_loop_life<O: Journal, I: Journal>(inbox: &Inbox<I>)
    ensures law { ServedIsALoopLife O.tells inbox.now }
{}
