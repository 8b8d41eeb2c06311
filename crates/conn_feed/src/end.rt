//! Why a feeding ended.

ghost use Rattle.std.specs.Prelude.{◌≡◌, ◌≢◌, IfErr};
ghost use Rattle.conn_feed.specs.Ends.{end_of, why_of};
ghost use Rattle.conn_feed.specs.Course.{ended_by};
ghost use Rattle.conn_feed.specs.declared.end.FeedEnd.TheVariants as ends;

use conn_accepted::Why;
use jr_boxes::SubmitFault;

/// Why a feeding ended.
#[derive(Clone, Copy)]
pub enum FeedEnd {
    /// INPUT is at its end, and each of its lines is answered.
    Ended,
    /// The outbox has the mark that nothing more comes.
    Closed,
    /// It was told to stop.
    Stopped,
    /// INPUT failed.
    Input,
    /// ACCEPTED failed: it has taken a front of the lines.
    Accepted,
    /// A call of the outbox's disk failed, now or since its opening.
    Journal,
    /// The outbox is at a limit for the next message: it has so many messages, and so many bytes.
    Full { entries: u64, bytes: u64 },
    /// There was not enough memory.
    Memory,
}

/// What ends a feeding where the outbox refused a message.
pub(crate) fn end_of(fault: SubmitFault) -> FeedEnd
    ensures { result ≡ end_of fault }
{
    match fault {
        SubmitFault::Broken | SubmitFault::Fault => FeedEnd::Journal,
        SubmitFault::Closed => FeedEnd::Closed,
        SubmitFault::Full { entries, bytes } => FeedEnd::Full { entries, bytes },
        SubmitFault::Memory => FeedEnd::Memory,
    }
}

/// What is said of a line whose message the outbox refused.
pub(crate) fn why_of(fault: SubmitFault) -> Why
    ensures { result ≡ why_of fault }
{
    match fault {
        SubmitFault::Broken | SubmitFault::Fault => Why::Failed,
        SubmitFault::Closed => Why::Closed,
        SubmitFault::Full { .. } => Why::Full,
        SubmitFault::Memory => Why::Memory,
    }
}

/// What ends a feeding behind a piece that the outbox refused so, if it did, and of which ACCEPTED was told so: that a journal failed comes
/// first, and then that ACCEPTED was not told all.
pub(crate) fn ended_by(
    refused: Option<SubmitFault>,
    told: Result<(), FeedEnd>,
) -> Result<(), FeedEnd>
    ensures value { result ≡ ended_by refused told }
    ensures unended { IfErr told (λ end. end ≢ ends.Ended) → IfErr result (λ end. end ≢ ends.Ended) }
    ensures own { IfErr told (λ end. end ≢ ends.Input) → IfErr result (λ end. end ≢ ends.Input) }
{
    match refused {
        None => told,
        Some(SubmitFault::Broken | SubmitFault::Fault) => Err(FeedEnd::Journal),
        Some(fault) => match told {
            Ok(()) => Err(end_of(fault)),
            Err(end) => Err(end),
        },
    }
}
