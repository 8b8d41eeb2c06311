//! Runs over told devices that are in order.

ghost use Rattle.cmd_session.specs.Outsides.{sees};
ghost use Rattle.run_laws.specs.Completeness.{DesksComplete, FreshIsSetUp, FreshIsSetUpWithDesks, RunCompletes};

use cmd_session::SessionOutside;
use gw_links::{Clock, Dialer};
use gw_outside::{Disk, Sink, Source};
use jr_dated::Journal;
use jr_segments::SegJournal;

/// What the clause of `run_session` leaves for a run over told devices that are in order, whose disks all tell, where no call failed: it lived
/// over both disks, and ended by its connections, at a limit or for want of memory; or memory ran out before.
pub fn run_completes<S: Source, K: Sink, D: Disk, N: Dialer, C: Clock>(
    before: &SessionOutside<S, K, D, N, C>,
    after: &SessionOutside<S, K, D, N, C>,
)
    ensures law { RunCompletes ⟦<SegJournal<D> as Journal>⟧ (sees S.Source K.Sink D.Disk N.Dialer N.Link.Link C.Clock) before.now after.now }
{}

/// The same where CONFIG has desks: it lived by what they answer, and left none of it out where it ended by its connections.
pub fn desks_complete<S: Source, K: Sink, D: Disk, N: Dialer, C: Clock>(
    before: &SessionOutside<S, K, D, N, C>,
    after: &SessionOutside<S, K, D, N, C>,
)
    ensures law { DesksComplete ⟦<SegJournal<D> as Journal>⟧ (sees S.Source K.Sink D.Disk N.Dialer N.Link.Link C.Clock) before.now after.now }
{}

/// Journals without records and an INPUT without bytes are in order, with any CONFIG that spells a configuration; and those journals are with
/// one that has desks, whatever INPUT has.
pub fn fresh_is_set_up<S: Source, K: Sink, D: Disk, N: Dialer, C: Clock>(
    before: &SessionOutside<S, K, D, N, C>,
)
    ensures law { FreshIsSetUp (sees S.Source K.Sink D.Disk N.Dialer N.Link.Link C.Clock) before.now }
    ensures desks { FreshIsSetUpWithDesks (sees S.Source K.Sink D.Disk N.Dialer N.Link.Link C.Clock) before.now }
{}
