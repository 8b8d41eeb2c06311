//! Any runs of two ends, over links that gave in time what they took.

ghost use Rattle.std.specs.Prelude.{Bool};
ghost use Rattle.cmd_session.specs.Outsides.{sees};
ghost use Rattle.cmd_feed.specs.Outsides.{feed_sees};
ghost use Rattle.run_laws.specs.Served.{ServedHolds};
ghost use Rattle.run_laws.specs.TimedLaws.{FinishIsWhole, RunsEndInTime};
ghost use Rattle.run_laws.specs.Resting.{RestIsWhole};
ghost use Rattle.run_laws.specs.Done.{DoneIsLived, DoneIsWhole};
ghost use Rattle.run_laws.specs.TimedSamples.{LaterSample, RunsInTimeSample};

use gw_links::{Clock, Dialer};
use gw_outside::{Disk, Sink, Source};
use jr_dated::Journal;
use jr_kept::Inbox;
use jr_segments::SegJournal;

/// Of two lives that were served, whose links are linked in time and whose ends knew no more of each other than was sent, no connection
/// that ended closed by a violation but silence and a late handshake, and the ends know no more of each other behind them, whatever
/// the inboxes of this kind, where the disks of the outboxes tell their content.
pub fn served_holds<O: Journal, I: Journal>(inbox: &Inbox<I>)
    ensures law { ServedHolds O.tells inbox.now }
{}

/// Two ends ran, each any number of times, by matching links: none of their connections that ended closed by a violation but silence
/// and a late handshake, whichever call of a device failed and wherever they were stopped.
pub fn runs_end_in_time<S: Source, I: Source, K: Sink, A: Sink, D: Disk, N: Dialer, C: Clock>()
    ensures law { (keeps : Bool) → RunsEndInTime ⟦<SegJournal<D> as Journal>⟧ (feed_sees (sees S.Source K.Sink D.Disk N.Dialer N.Link.Link C.Clock) keeps I.Source A.Sink) }
{}

/// Behind them an inbox that has the finish of its peer has all of the peer's outbox.
pub fn finish_is_whole<S: Source, I: Source, K: Sink, A: Sink, D: Disk, N: Dialer, C: Clock>()
    ensures law { (keeps : Bool) → FinishIsWhole ⟦<SegJournal<D> as Journal>⟧ (feed_sees (sees S.Source K.Sink D.Disk N.Dialer N.Link.Link C.Clock) keeps I.Source A.Sink) }
{}

/// Where a run of an end came back with status 0, its inbox has all of the other's outbox, to its finish, whatever runs came behind it and however
/// the other's ended. Such a run lived one life, the last connection of which ended as finished.
pub fn done_is_whole<S: Source, I: Source, K: Sink, A: Sink, D: Disk, N: Dialer, C: Clock>()
    ensures law { (keeps : Bool) → DoneIsWhole ⟦<SegJournal<D> as Journal>⟧ (feed_sees (sees S.Source K.Sink D.Disk N.Dialer N.Link.Link C.Clock) keeps I.Source A.Sink) }
    ensures lived { (keeps : Bool) → DoneIsLived ⟦<SegJournal<D> as Journal>⟧ (feed_sees (sees S.Source K.Sink D.Disk N.Dialer N.Link.Link C.Clock) keeps I.Source A.Sink) }
{}

/// Where both ends were at rest as their last runs left them, quiet or with both finishes exchanged, each inbox has all of the other end's
/// outbox.
pub fn rest_is_whole<S: Source, I: Source, K: Sink, A: Sink, D: Disk, N: Dialer, C: Clock>()
    ensures law { (keeps : Bool) → RestIsWhole ⟦<SegJournal<D> as Journal>⟧ (feed_sees (sees S.Source K.Sink D.Disk N.Dialer N.Link.Link C.Clock) keeps I.Source A.Sink) }
{}

/// Two runs of each of two ends in memory, the second of either a next life, meet all premises of `runs_end_in_time` on runs; and so would a next CONFIG with another
/// interval and version.
pub fn runs_in_time_sample<I: Journal>(empty: &Inbox<I>)
    ensures law { RunsInTimeSample empty.now }
    ensures later { LaterSample }
{}
