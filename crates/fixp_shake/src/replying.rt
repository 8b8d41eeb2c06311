//! What an initiator does at the replies to its Negotiate and its Establish.

ghost use Rattle.std.specs.Prelude.{◌≡◌, Some, IsSome};
ghost use Rattle.fixp_msgs.specs.Message.{message_of};
ghost use Rattle.fixp_shake.specs.Handshake.{reply_step, after_negotiation_reject, after_establishment_reject};

use crate::config::EndConfig;
use crate::judging::{EstablishmentCode, NegotiationCode};
use crate::violation::Violation;
use fixp_msgs::SessionMsg;

/// The next step of an initiator's handshake.
#[derive(Clone, Copy, Debug)]
pub enum ShakeStep {
    /// The session is negotiated: write Establish.
    Establish,
    /// The connection is established, if the announcement stands.
    Established,
    /// The acceptor knows of no negotiation: write Negotiate.
    Negotiate,
    /// The session is refused, by the message with this template.
    Rejected { template: u16, code: u8 },
    /// The reply breaks a rule.
    Violate(Violation),
}

/// The step at a NegotiationReject with this code. A session that is negotiated already is as good as one negotiated now.
fn after_negotiation_reject(code: u8) -> ShakeStep
    ensures { result ≡ after_negotiation_reject code }
{
    if code == NegotiationCode::DuplicateId.code() {
        ShakeStep::Establish
    } else {
        ShakeStep::Rejected { template: 3, code }
    }
}

/// The step at an EstablishmentReject with this code. A session of which the acceptor knows no negotiation is negotiated anew.
fn after_establishment_reject(code: u8) -> ShakeStep
    ensures { result ≡ after_establishment_reject code }
{
    if code == EstablishmentCode::Unnegotiated.code() {
        ShakeStep::Negotiate
    } else {
        ShakeStep::Rejected { template: 6, code }
    }
}

/// The step at a reply of the configured session, which is a NegotiationResponse, a NegotiationReject, an EstablishmentAck or
/// an EstablishmentReject. That the phase awaits it is looked at before.
pub fn after_reply(cfg: &EndConfig, m: &SessionMsg<'_>) -> ShakeStep
    requires { IsSome (reply_step cfg.now (message_of m.now)) }
    ensures { reply_step cfg.now (message_of m.now) ≡ Some result }
{
    match m {
        SessionMsg::NegotiationResponse(response) => {
            if response.server_flow == cfg.peer_flow.code() {
                ShakeStep::Establish
            } else {
                ShakeStep::Violate(Violation::OtherSession { template: 2 })
            }
        }
        SessionMsg::NegotiationReject(reject) => after_negotiation_reject(reject.code),
        SessionMsg::EstablishmentAck(_) => ShakeStep::Established,
        SessionMsg::EstablishmentReject(reject) => after_establishment_reject(reject.code),
        SessionMsg::Negotiate(_)
        | SessionMsg::Establish(_)
        | SessionMsg::Sequence(_)
        | SessionMsg::UnsequencedHeartbeat(_)
        | SessionMsg::RetransmitRequest(_)
        | SessionMsg::Retransmission(_)
        | SessionMsg::RetransmitReject(_)
        | SessionMsg::Applied(_)
        | SessionMsg::NotApplied(_)
        | SessionMsg::FinishedSending(_)
        | SessionMsg::FinishedReceiving(_)
        | SessionMsg::Terminate(_) => unreachable!(),
    }
}
