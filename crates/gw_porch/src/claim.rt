//! What a guest asks for that gives the keys.

use conn_keys::Reject;
use fixp_msgs::SessionMsg;
use fixp_replies::{Incoming, classify};
use fixp_shake::{EstablishmentCode, NegotiationCode};
use sofh_frame::{FirstFrame, next};

/// The shortest and the longest heartbeat interval, in milliseconds.
const SHORTEST: u32 = 100;

const LONGEST: u32 = 60_000;

/// How long the older connection may be silent beyond one and a half intervals, in milliseconds.
const GRACE: u64 = 100;

/// What a guest asks for that gives the keys.
#[derive(Clone, Copy)]
pub(crate) struct Claim {
    /// How long the older connection may be silent before this one takes over, in milliseconds.
    pub patience: u64,
    /// What is written to it where the older connection lives.
    pub refusal: Reject,
}

/// How long a connection with this heartbeat interval may be silent, both in milliseconds. One that nobody may have is taken for the next that one may.
fn patience_of(interval: u32) -> u64 {
    let interval = u64::from(interval.max(SHORTEST).min(LONGEST));
    interval + interval / 2 + GRACE
}

/// The claim that begins these bytes, which give the keys; `own` is the interval that stands for that of a Negotiate, which names none.
pub(crate) fn claim_of(front: &[u8], own: u32) -> Option<Claim> {
    let FirstFrame::Frame { order, message, .. } = next(front) else {
        return None;
    };
    match classify(order, message) {
        Incoming::Session(SessionMsg::Negotiate(m)) => Some(Claim {
            patience: patience_of(own),
            refusal: Reject::Negotiation {
                session_id: m.session_id,
                request_timestamp: m.timestamp,
                code: NegotiationCode::DuplicateId,
            },
        }),
        Incoming::Session(SessionMsg::Establish(m)) => Some(Claim {
            patience: patience_of(m.keepalive),
            refusal: Reject::Establishment {
                session_id: m.session_id,
                request_timestamp: m.timestamp,
                code: EstablishmentCode::AlreadyEstablished,
            },
        }),
        _ => None,
    }
}
