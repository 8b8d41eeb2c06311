//! The bytes under way from one end to the other, and how many frames a connection carries before it is cut.

use cases_made::session_in;
use fixp_msgs::SessionMsg;
use sbe_prim::Order;
use std::alloc::{AllocError, Global};

/// Bytes under way to an end, in order.
#[derive(Drop)]
pub struct Line {
    bytes: Vec<u8>,
    /// How many of them were read.
    read: usize,
}

impl Line {
    /// No bytes.
    pub fn new(alloc: Global) -> Line {
        Line {
            bytes: Vec::new(alloc),
            read: 0,
        }
    }

    /// The bytes that were not read yet.
    pub fn unread(&self) -> &[u8] {
        match self.bytes.as_slice().split_at_checked(self.read) {
            Some((_, unread)) => unread,
            None => &[],
        }
    }

    /// Bytes are sent.
    pub fn put(&mut self, bytes: &[u8]) -> Result<(), AllocError> {
        self.bytes.extend_from_slice(bytes)
    }

    /// So many bytes are read.
    pub fn pass(&mut self, size: usize) {
        self.read = self.read.saturating_add(size);
    }

    /// What is under way is lost.
    pub fn lose(&mut self) {
        self.bytes.clear();
        self.read = 0;
    }
}

/// What a connection carries.
#[derive(Clone, Copy)]
pub struct Passage {
    /// How many frames it may still carry, of both directions.
    left: u64,
    /// Whether the end that took the last of them ends its turn before it sees that the connection is cut.
    late: bool,
    /// How many frames it has carried.
    pub carried: u64,
    /// How many of them asked for a retransmission.
    pub requests: u64,
}

impl Passage {
    /// A connection that is not cut.
    pub fn whole() -> Passage {
        Passage {
            left: u64::MAX,
            late: false,
            carried: 0,
            requests: 0,
        }
    }

    /// A connection that is cut at this place. Two places belong to each number of frames, from 0 on: at the first one the end
    /// that took the last frame sees the cut at once, at the second one it ends its turn before.
    pub fn cut_at(place: u64) -> Passage {
        Passage {
            left: place / 2,
            late: place % 2 == 1,
            carried: 0,
            requests: 0,
        }
    }

    /// Whether it is cut.
    pub fn is_cut(self) -> bool {
        self.left == 0
    }

    /// Whether an end that is in its turn sees that it is cut.
    pub fn is_seen_cut(self) -> bool {
        self.is_cut() && !self.late
    }

    /// It carries a frame.
    pub fn carry(&mut self, order: Order, message: &[u8]) {
        self.left = self.left.saturating_sub(1);
        self.carried = self.carried.saturating_add(1);
        if asks_again(order, message) {
            self.requests = self.requests.saturating_add(1);
        }
    }
}

/// Whether a message asks for a retransmission.
fn asks_again(order: Order, message: &[u8]) -> bool {
    matches!(
        session_in(order, message),
        Some(SessionMsg::RetransmitRequest(_))
    )
}
