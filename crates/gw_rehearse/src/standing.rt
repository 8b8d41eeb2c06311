//! Where an end stands between two turns.

ghost use Rattle.std.specs.Prelude.{◌≡◌};

use conn_loop::{TurnEnd, TurnFault};
use gate_staff::ResumeFault;
use jr_dated::FetchFault;
use jr_kept::{CloseFault, SubmitFault};

/// Where an end stands.
#[derive(Clone, Copy)]
pub enum Standing {
    /// No connection was begun, or the last one has ended: the next may begin.
    Over,
    /// A connection goes on.
    Open,
    /// A call of a disk failed: the end is to be stopped.
    Failed,
    /// Memory ran out, or the room of a journal or of the link: nothing follows.
    GivenUp,
}

impl Standing {
    ghost use Rattle.gw_rehearse.specs.Standing.{marked_by, refused_by, resumed_by, sent_by, standing_of};

    /// Where an end stands behind a turn that answered so.
    pub(crate) fn behind(answer: Result<TurnEnd, TurnFault>) -> Standing
        ensures { result ≡ standing_of answer }
    {
        match answer {
            Ok(TurnEnd::Go) => Standing::Open,
            Ok(TurnEnd::Ended(_)) | Err(TurnFault::Link) => Standing::Over,
            Err(TurnFault::Inbox | TurnFault::Outbox | TurnFault::Broken) => Standing::Failed,
            Err(TurnFault::Changed { .. } | TurnFault::Full { .. } | TurnFault::Memory) => {
                Standing::GivenUp
            }
        }
    }

    /// Where it stands once it is known whether the link took all that the turn wrote.
    pub(crate) fn sent(self, is_all: bool) -> Standing
        ensures { result ≡ sent_by is_all self }
    {
        if is_all {
            return self;
        }
        match self {
            Standing::Over | Standing::Open | Standing::GivenUp => Standing::GivenUp,
            Standing::Failed => Standing::Failed,
        }
    }

    /// Where it stands once what a turn applied was answered so.
    pub(crate) fn refused(self, answer: Result<(), SubmitFault>) -> Standing
        ensures { result ≡ refused_by self answer }
    {
        match answer {
            Ok(()) | Err(SubmitFault::Closed) => self,
            Err(SubmitFault::Fault | SubmitFault::Broken) => Standing::Failed,
            Err(SubmitFault::Full { .. } | SubmitFault::Memory) => Standing::GivenUp,
        }
    }

    /// Where it stands once its connection's pass was to see the mark behind the outbox.
    pub(crate) fn marked(self, answer: Result<(), CloseFault>) -> Standing
        ensures { result ≡ marked_by self answer }
    {
        match answer {
            Ok(()) | Err(CloseFault::Closed) => self,
            Err(CloseFault::Fault | CloseFault::Broken) => Standing::Failed,
            Err(CloseFault::Memory) => Standing::GivenUp,
        }
    }

    /// Where it stands once those who answer were to take their place behind its inbox.
    pub(crate) fn resumed(answer: Result<(), ResumeFault>) -> Standing
        ensures { result ≡ resumed_by answer }
    {
        match answer {
            Ok(()) => Standing::Over,
            Err(ResumeFault::Submit(fault)) => Standing::Over.refused(Err(fault)),
            Err(ResumeFault::Fetch(FetchFault::Fault | FetchFault::Broken)) => Standing::Failed,
            Err(ResumeFault::Fetch(FetchFault::Memory | FetchFault::Changed { .. })) => {
                Standing::GivenUp
            }
        }
    }
}
