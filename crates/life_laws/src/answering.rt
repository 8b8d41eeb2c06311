//! Laws from what `serve_answering` ensures of a life to what its outbox keeps.

ghost use Rattle.life_laws.specs.AnsweredLives.{AnsweredPasses, AnsweringKeepsOutbox, AnsweringKeepsSenders, AnsweringIsLived};

use gate_staff::Business;
use gw_links::Dialer;
use jr_dated::Journal;
use jr_kept::Inbox;

/// What `serve_answering` ensures of a life makes the passes know what its business answered, whatever the inboxes of this kind.
pub fn answered_passes<O: Journal + Send, I: Journal, N: Dialer, B: Business<O>>(inbox: &Inbox<I>)
    ensures law { AnsweredPasses B.stands B.plan B.count B.part O.tells N.Link.Link inbox.now }
{}

/// And so its outbox keeps the plan of the business, whatever the inboxes of this kind.
pub fn answering_keeps_outbox<O: Journal + Send, I: Journal, N: Dialer, B: Business<O>>(
    inbox: &Inbox<I>,
)
    ensures law { AnsweringKeepsOutbox B.stands B.plan B.count B.part O.tells N.Link.Link inbox.now }
{}

/// It keeps what its senders were to send, and goes on with all that was lost, whatever the inboxes of this kind.
pub fn answering_keeps_senders<O: Journal + Send, I: Journal, N: Dialer, B: Business<O>>(
    inbox: &Inbox<I>,
)
    ensures law { AnsweringKeepsSenders B.stands B.plan B.count B.part O.tells N.Link.Link inbox.now }
{}

/// Once the gate is closed, it was lived over the boxes, whatever the inboxes of this kind, and whatever the disks tell.
pub fn answering_is_lived<O: Journal + Send, I: Journal, N: Dialer, B: Business<O>>(
    inbox: &Inbox<I>,
)
    ensures law { AnsweringIsLived B.stands B.plan B.count B.part O.Journal N.Link.Link inbox.now }
{}
