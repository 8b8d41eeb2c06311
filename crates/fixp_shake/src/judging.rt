//! What an acceptor answers to Negotiate and Establish (FIXP 1.1, session negotiation and establishment; the order of the
//! checks is this project's profile).

ghost use Rattle.std.specs.Prelude.{◌≡◌};
ghost use Rattle.fixp_shake.specs.Handshake.{negotiation_code, establishment_code, negotiate_answer, is_odd_interval, establish_answer};

use crate::config::EndConfig;
use fixp_msgs::{Establish, Negotiate};

/// Why a Negotiate is rejected (FIXP 1.1, NegotiationReject; the numbers are this project's profile).
#[derive(Clone, Copy, Debug)]
pub enum NegotiationCode {
    /// 1. It names another session.
    Unspecified,
    /// 2. Its credentials are others.
    Credentials,
    /// 3. The client's flow is another than the one configured.
    FlowTypeNotSupported,
    /// 4. The session is negotiated already.
    DuplicateId,
}

impl NegotiationCode {
    /// The number that stands for it in a message.
    pub fn code(self) -> u8
        ensures { result ≡ negotiation_code self }
    {
        match self {
            NegotiationCode::Unspecified => 1,
            NegotiationCode::Credentials => 2,
            NegotiationCode::FlowTypeNotSupported => 3,
            NegotiationCode::DuplicateId => 4,
        }
    }
}

/// Why an Establish is rejected (FIXP 1.1, EstablishmentReject; the numbers are this project's profile). 1 and 4 are read, and
/// never written.
#[derive(Clone, Copy, Debug)]
pub enum EstablishmentCode {
    /// 2. It names another session, or one that is not negotiated.
    Unnegotiated,
    /// 3. The connection is established already.
    AlreadyEstablished,
    /// 5. The heartbeat interval is below 100 or above 60,000 milliseconds.
    KeepaliveInterval,
    /// 6. Its credentials are others.
    Credentials,
}

impl EstablishmentCode {
    /// The number that stands for it in a message.
    pub fn code(self) -> u8
        ensures { result ≡ establishment_code self }
    {
        match self {
            EstablishmentCode::Unnegotiated => 2,
            EstablishmentCode::AlreadyEstablished => 3,
            EstablishmentCode::KeepaliveInterval => 5,
            EstablishmentCode::Credentials => 6,
        }
    }
}

/// What an acceptor answers to a Negotiate.
#[derive(Clone, Copy, Debug)]
pub enum NegotiateAnswer {
    /// A NegotiationResponse.
    Respond,
    /// A NegotiationReject with this code.
    Reject(NegotiationCode),
}

/// What an acceptor answers to an Establish.
#[derive(Clone, Copy, Debug)]
pub enum EstablishAnswer {
    /// An EstablishmentAck, if its announcement stands.
    Ack,
    /// An EstablishmentReject with this code.
    Reject(EstablishmentCode),
}

/// Judges a Negotiate. `negotiated` tells that the session is negotiated already. The checks are made in this order: the
/// session's identifier, the credentials, the client's flow, and that the session is not negotiated.
pub fn judge_negotiate(cfg: &EndConfig, negotiated: bool, m: &Negotiate<'_>) -> NegotiateAnswer
    ensures { result ≡ negotiate_answer cfg.now negotiated m.now.session_id m.now.client_flow m.now.credentials.now }
{
    if m.session_id != cfg.session {
        return NegotiateAnswer::Reject(NegotiationCode::Unspecified);
    }
    if m.credentials != cfg.credentials.as_slice() {
        return NegotiateAnswer::Reject(NegotiationCode::Credentials);
    }
    if m.client_flow != cfg.peer_flow.code() {
        return NegotiateAnswer::Reject(NegotiationCode::FlowTypeNotSupported);
    }
    if negotiated {
        return NegotiateAnswer::Reject(NegotiationCode::DuplicateId);
    }
    NegotiateAnswer::Respond
}

/// Whether a peer may not have this heartbeat interval, in milliseconds.
fn is_odd_interval(keepalive: u32) -> bool
    ensures { result ≡ is_odd_interval keepalive }
{
    keepalive < 100 || keepalive > 60000
}

/// Judges an Establish. `negotiated` tells that the session is negotiated, `established` that the connection is established
/// already. The checks are made in this order: the session's identifier, that the connection is not established, that the
/// session is negotiated, the heartbeat interval, and the credentials.
pub fn judge_establish(
    cfg: &EndConfig,
    negotiated: bool,
    established: bool,
    m: &Establish<'_>,
) -> EstablishAnswer
    ensures { result ≡ establish_answer cfg.now negotiated established m.now.session_id m.now.keepalive m.now.credentials.now }
{
    if m.session_id != cfg.session {
        return EstablishAnswer::Reject(EstablishmentCode::Unnegotiated);
    }
    if established {
        return EstablishAnswer::Reject(EstablishmentCode::AlreadyEstablished);
    }
    if !negotiated {
        return EstablishAnswer::Reject(EstablishmentCode::Unnegotiated);
    }
    if is_odd_interval(m.keepalive) {
        return EstablishAnswer::Reject(EstablishmentCode::KeepaliveInterval);
    }
    if m.credentials != cfg.credentials.as_slice() {
        return EstablishAnswer::Reject(EstablishmentCode::Credentials);
    }
    EstablishAnswer::Ack
}
