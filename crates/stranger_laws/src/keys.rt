//! Whether a message opens a session, or gives the keys to it: a session's identifier and its credentials.

ghost use Rattle.std.specs.Prelude.{◌≡◌};
ghost use Rattle.fixp_replies.specs.Incoming.{incoming_of};
ghost use Rattle.stranger_laws.specs.Opening.{gives_both, names_session, opens, gives_keys};

use fixp_msgs::SessionMsg;
use fixp_replies::Incoming;
use fixp_shake::{EndConfig, Role};

/// Whether this identifier and these credentials are an acceptor's.
fn gives_both(config: &EndConfig, session_id: &[u8; 16], credentials: &[u8]) -> bool
    ensures { result ≡ gives_both config.now session_id.now credentials.now }
{
    matches!(config.role, Role::Acceptor)
        && *session_id == config.session
        && credentials == config.credentials.as_slice()
}

/// Whether this identifier is an initiator's.
fn names_session(config: &EndConfig, session_id: &[u8; 16]) -> bool
    ensures { result ≡ names_session config.now session_id.now }
{
    matches!(config.role, Role::Initiator) && *session_id == config.session
}

/// Whether an end takes from this message on what its peer sends: an Establish with its session and its credentials, at an acceptor, or an
/// EstablishmentAck with its session, at an initiator (FIXP 1.1, "Session establishment").
pub fn opens(config: &EndConfig, incoming: &Incoming<'_>) -> bool
    ensures exact { result ≡ opens config.now (incoming_of incoming.now) }
{
    match incoming {
        Incoming::Session(SessionMsg::Establish(m)) => {
            gives_both(config, &m.session_id, m.credentials)
        }
        Incoming::Session(SessionMsg::EstablishmentAck(m)) => names_session(config, &m.session_id),
        _ => false,
    }
}

/// Whether this message is one of the handshake that gives an acceptor its session and its credentials, or names an initiator its session: it
/// opens the session, or may make it negotiated.
pub fn gives_keys(config: &EndConfig, incoming: &Incoming<'_>) -> bool
    ensures exact { result ≡ gives_keys config.now (incoming_of incoming.now) }
{
    match incoming {
        Incoming::Session(SessionMsg::Negotiate(m)) => {
            gives_both(config, &m.session_id, m.credentials)
        }
        Incoming::Session(SessionMsg::Establish(m)) => {
            gives_both(config, &m.session_id, m.credentials)
        }
        Incoming::Session(SessionMsg::NegotiationResponse(m)) => {
            names_session(config, &m.session_id)
        }
        Incoming::Session(SessionMsg::NegotiationReject(m)) => {
            names_session(config, &m.session_id)
        }
        Incoming::Session(SessionMsg::EstablishmentAck(m)) => names_session(config, &m.session_id),
        _ => false,
    }
}
