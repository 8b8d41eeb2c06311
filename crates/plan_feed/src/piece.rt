//! Messages that go into an outbox as one piece: at most 64, of at most 256 KiB, and of one sender.

use plan_values::Plan;
use sbe_value::Bytes;
use std::alloc::{AllocError, Global};
use std::marker::Model;

/// The most messages of a piece.
const MOST_MESSAGES: u64 = 64;

/// The most bytes of a piece: 256 KiB.
const MOST_BYTES: usize = 262_144;

/// The messages that lines in a row give to one sender, in their order, as far as they go as one piece.
#[derive(Drop)]
pub struct Piece {
    sender: u16,
    plan: Plan,
    bytes: usize,
}

impl Model for Piece {
    ghost use Rattle.std.specs.Prelude.{◌≡◌};
    ghost use Rattle.plan_values.specs.Plans.{payloads_of};
    ghost use Rattle.plan_feed.specs.Pieces.{Messages, IsPiece, size_of};

    ghost Value = { Messages };

    ghost view = { λ p. record { sender = p.sender; payloads = payloads_of p.plan } };

    ghost invariant = { λ p. (p.bytes ≡ size_of (payloads_of p.plan)) × IsPiece (payloads_of p.plan) };
}

impl Piece {
    ghost use Rattle.std.specs.Prelude.{◌≡◌, ◌↔◌, [], ◌∷◌, ◌++◌, length, IsTrue, OnOk, OnErr};
    ghost use Rattle.std.specs.List.{AllByRecursion};
    ghost use Rattle.fixp_msgs.specs.Payload.{IsApplication};
    ghost use Rattle.plan_feed.specs.Pieces.{IsPiece, Takes};

    /// A piece of no messages.
    pub fn new(alloc: Global) -> Piece
        ensures empty { result.payloads ≡ [] }
    {
        Piece {
            sender: 0,
            plan: Plan::new(alloc),
            bytes: 0,
        }
    }

    /// Whether it has no messages.
    pub fn is_empty(&self) -> bool
        ensures { IsTrue result ↔ (self.now.payloads ≡ []) }
    {
        self.plan.len() == 0
    }

    /// Whether a message of this sender, whose payload has `size` bytes, may stand behind the others.
    pub fn takes(&self, sender: u16, size: usize) -> bool
        ensures { IsTrue result ↔ Takes self.now sender size }
    {
        if self.plan.len() == 0 {
            return true;
        }
        sender == self.sender && self.plan.len() < MOST_MESSAGES && size <= MOST_BYTES - self.bytes
    }

    /// Adds a message behind the others.
    ///
    /// # Errors
    /// Want of memory, which leaves all as it was.
    pub fn add(&mut self, sender: u16, payload: Bytes) -> Result<(), AllocError>
        requires takes { Takes self.old sender (length payload) }
        requires application { IsApplication payload }
        ensures added { OnOk result (self.new ≡ record { sender = sender; payloads = self.old.payloads ++ payload ∷ [] }) }
        ensures err { OnErr result (self.new ≡ self.old) }
    {
        let size = payload.len();
        let is_added = self.plan.add(payload)?;
        if !is_added {
            unreachable!()
        }
        self.sender = sender;
        self.bytes += size;
        Ok(())
    }

    /// The sender of its messages. Of a piece of none nothing is said.
    pub fn sender(&self) -> u16
        ensures { result ≡ self.now.sender }
    {
        self.sender
    }

    /// The payloads of its messages, in order.
    pub fn payloads(&self) -> &[Bytes]
        ensures value { result.now ≡ self.now.payloads }
        ensures applications { AllByRecursion IsApplication result.now }
        ensures within { IsPiece result.now }
    {
        self.plan.piece(0, self.plan.len())
    }

    /// Has it begin anew, without messages.
    pub fn clear(&mut self, alloc: Global)
        ensures { self.new.payloads ≡ [] }
    {
        self.plan = Plan::new(alloc);
        self.bytes = 0;
    }
}
