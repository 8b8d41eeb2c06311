//! An entry that is on the disk, and may be sent.

ghost use Rattle.std.specs.Prelude.{◌≡◌, ◌<◌, ◌^◌};
ghost use Rattle.jr_record.specs.Records.{IsPayload};

use gw_outside::Bytes;
use std::marker::Model;

/// An entry that every later stop leaves: its number and its payload. Only an outbox makes one. Contracts see it as a
/// numbered message.
#[derive(Drop)]
pub struct Stable {
    number: u64,
    payload: Bytes,
}

impl Model for Stable {
    ghost use Rattle.std.specs.Prelude.{◌<◌, ◌^◌};
    ghost use Rattle.session_model.specs.Inbox.{Numbered};
    ghost use Rattle.jr_record.specs.Records.{IsPayload};

    ghost Value = { Numbered };

    ghost view = { λ s. record { number = s.number; payload = s.payload } };

    ghost invariant = { λ s. (s.number < 2 ^ 40) × IsPayload s.payload };
}

impl Stable {
    /// The entry of this number.
    pub(crate) fn new(number: u64, payload: Bytes) -> Stable
        requires few { number < 2 ^ 40 }
        requires size { IsPayload payload }
        ensures number { result.number ≡ number }
        ensures payload { result.payload ≡ payload }
    {
        Stable { number, payload }
    }

    /// Its number, from 1 on.
    pub fn number(&self) -> u64
        ensures value { result ≡ self.now.number }
        ensures few { result < 2 ^ 40 }
    {
        self.number
    }

    /// Its payload, of 10 to 16,386 bytes.
    pub fn payload(&self) -> &[u8]
        ensures value { result.now ≡ self.now.payload }
        ensures size { IsPayload self.now.payload }
    {
        self.payload.as_slice()
    }

    /// Gives its payload, of 10 to 16,386 bytes.
    pub fn into_payload(self) -> Bytes
        ensures value { result ≡ self.payload }
        ensures size { IsPayload result }
    {
        self.payload
    }
}
