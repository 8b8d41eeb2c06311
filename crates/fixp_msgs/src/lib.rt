//! Session messages of the FIX Performance Session Layer: their fields, how they are
//! told from application messages, their bytes, read and written, and the numbers that they imply.
//! It stands on the frames of `sofh_frame` and the numbering of `session_model`.
#![tactic(auto)]

mod flow;
mod frames;
mod laws;
mod messages;
mod numbering;
mod payload;
mod reading;
mod writing;

pub use flow::Flow;
pub use frames::{FrameKind, kind};
pub use laws::{one_message, spelled_is_found, written_is_spelled, written_is_whole};
pub use messages::{
    Applied, Establish, EstablishmentAck, EstablishmentReject, Expected, FinishedReceiving,
    FinishedSending, Negotiate, NegotiationReject, NegotiationResponse, NotApplied, Retransmission,
    RetransmitReject, RetransmitRequest, Sequence, SessionMsg, Terminate, UnsequencedHeartbeat,
};
pub use numbering::{Counter, Range};
pub use payload::is_application;
pub use reading::{MsgFault, read};
pub use writing::{size, write};
