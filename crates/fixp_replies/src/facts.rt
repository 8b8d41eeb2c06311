//! What a reply depends on: what is recorded, what is known of the connection, and what stands around the event.

ghost use Rattle.std.specs.Prelude.{◌≡◌};
ghost use Rattle.fixp_replies.specs.Facts.{new_connection};

use fixp_msgs::Range;
use fixp_shake::{EndConfig, Phase};
use flow_recover::Numbers;
use flow_retrans::Requester;

/// What the journals of an end record: the facts that outlive a connection.
#[derive(Clone, Copy)]
pub struct EndState {
    /// Whether the session was negotiated.
    pub negotiated: bool,
    /// The number of the next message that the inbox awaits, from 1.
    pub inbox_next: u64,
    /// The last number of the peer's flow, where its finish is recorded: 0 for a flow without numbers.
    pub peer_last: Option<u64>,
    /// How many entries of the outbox were sent or begun.
    pub sent: u64,
    /// How many entries the outbox has, where it is finished.
    pub finish: Option<u64>,
}

/// How far the own finish has come on a connection (FIXP 1.1, FinishedSending and FinishedReceiving).
#[derive(Clone, Copy)]
pub enum OwnFinish {
    /// FinishedSending was not written.
    Open,
    /// FinishedSending was written, and its answer is awaited.
    Told,
    /// FinishedReceiving came.
    Exchanged,
}

/// How far the peer's finish has come on a connection.
#[derive(Clone, Copy)]
pub enum PeerFinish {
    /// FinishedSending did not come.
    Open,
    /// FinishedSending came with this last number, and a gap is still to be filled.
    Read(u64),
    /// FinishedReceiving was written as the answer to it.
    Exchanged(u64),
}

/// What an end knows of the connection that it is in. It is made anew at each connection's beginning.
#[derive(Clone, Copy)]
pub struct Connection {
    pub phase: Phase,
    /// What is expected of the peer's flow, where it is recoverable.
    pub receiver: Numbers,
    /// What was asked for of the peer's flow.
    pub requester: Requester,
    /// What is still to be sent again of the range that the peer asked for.
    pub serving: Option<Range>,
    pub own_finish: OwnFinish,
    pub peer_finish: PeerFinish,
    /// The peer's heartbeat interval in milliseconds, 100 to 60,000; 0 as long as the handshake is not done.
    pub peer_interval: u32,
    /// The peer was told which number is expected, and has not started: it may announce one below what it announced.
    pub soft: bool,
}

impl Connection {
    /// A connection that begins in this phase, where this is recorded.
    pub fn new(recorded: &EndState, phase: Phase) -> Connection
        ensures { result ≡ new_connection recorded.now phase }
    {
        Connection {
            phase,
            receiver: Numbers::new(recorded.inbox_next),
            requester: Requester::new(),
            serving: None,
            own_finish: OwnFinish::Open,
            peer_finish: PeerFinish::Open,
            peer_interval: 0,
            soft: false,
        }
    }
}

/// What a reply depends on, beside what stands around it: what is recorded, and what is known of the connection.
#[derive(Clone, Copy)]
pub struct Facts {
    pub recorded: EndState,
    pub connection: Connection,
}

/// What stands around a reply: the configuration, the greatest number of an application message, the place of the frame
/// in the connection's bytes, the moment in milliseconds, and the least number of a message that is held past a gap.
#[derive(Clone, Copy)]
pub struct Around<'a> {
    pub config: &'a EndConfig,
    pub most: u64,
    pub at: u64,
    pub moment: u64,
    pub held: Option<u64>,
}
