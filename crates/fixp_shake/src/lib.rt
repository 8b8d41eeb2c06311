//! The words of a session that its whole machine shares: roles, kinds of flow, phases, configurations, and the rules that a
//! peer may break; and the checks of a handshake: what an acceptor answers to Negotiate and Establish, and what an initiator
//! does at the replies. It relies on the messages of `fixp_msgs`.
#![tactic(auto)]

mod config;
mod flows;
mod judging;
mod phase;
mod replying;
mod violation;

pub use config::{EndConfig, Role};
pub use fixp_msgs::Flow;
pub use flows::{is_absent, is_idempotent, is_recoverable, is_sequenced};
pub use judging::{
    EstablishAnswer, EstablishmentCode, NegotiateAnswer, NegotiationCode, judge_establish,
    judge_negotiate,
};
pub use phase::{
    Phase, is_closing, is_established, is_establishing, is_idle, is_negotiating, is_shaken,
};
pub use replying::{ShakeStep, after_reply};
pub use violation::Violation;
