//! A record of a journal.

ghost use Rattle.std.specs.Prelude.{◌≡◌, IfOk};
ghost use Rattle.jr_record.specs.Records.{is_control as exempt};

use gw_outside::Bytes;
use std::alloc::{AllocError, Global};

/// One record of an outbound or an inbound journal.
#[derive(Drop, PartialEq, Eq)]
pub enum Record {
    /// A message that sender 1 to 16 handed in, the `k`-th of that sender.
    Entry { sender: u16, k: u64, payload: Bytes },
    /// The peer's message of this number was applied.
    Apply { number: u64, payload: Bytes },
    /// `count` numbers of the peer from `from` on were jumped over and are not applied.
    Skip { from: u64, count: u64 },
    /// The session is negotiated.
    Negotiated,
    /// The peer has finished sending; its last number.
    PeerFinished { last: u64 },
    /// Nothing more will be sent.
    Finish,
}

impl Record {
    /// An equal record of its own.
    pub fn copy(&self, alloc: Global) -> Result<Record, AllocError>
        ensures { IfOk result (λ r. r ≡ self.now) }
    {
        Ok(match self {
            Record::Entry { sender, k, payload } => Record::Entry {
                sender: *sender,
                k: *k,
                payload: payload.copy(alloc)?,
            },
            Record::Apply { number, payload } => Record::Apply {
                number: *number,
                payload: payload.copy(alloc)?,
            },
            Record::Skip { from, count } => Record::Skip {
                from: *from,
                count: *count,
            },
            Record::Negotiated => Record::Negotiated,
            Record::PeerFinished { last } => Record::PeerFinished { last: *last },
            Record::Finish => Record::Finish,
        })
    }

    /// Whether it is written past the limit of bytes too.
    pub fn is_control(&self) -> bool
        ensures { result ≡ exempt self.now }
    {
        match self {
            Record::Entry { .. } | Record::Apply { .. } | Record::Skip { .. } => false,
            Record::Negotiated | Record::PeerFinished { .. } | Record::Finish => true,
        }
    }
}
