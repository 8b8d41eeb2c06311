//! Records in short, as a plain list has them, and the records that they stand for.

ghost use Rattle.std.specs.Prelude.{IfOk};
ghost use Rattle.std.specs.List.{AllByRecursion};
ghost use Rattle.jr_record.specs.Records.{IsRecord, IsPayload};

use gw_outside::Bytes;
use jr_dated::Records;
use jr_record::Record;
use std::alloc::{AllocError, Global};

/// A message of 8 bytes behind its encoding type.
const SHORT: [u8; 10] = [0xEB, 0x50, 0, 0, 7, 0, 0x64, 0, 1, 0];

/// One of 16 bytes.
const LONG: [u8; 18] = [
    0xEB, 0x50, 8, 0, 7, 0, 0x64, 0, 1, 0, 1, 0, 1, 1, 0xA5, 1, 0, 1,
];

/// What a record is.
#[derive(Clone, Copy)]
pub enum Kind {
    Entry,
    Apply,
    Skip,
    Negotiated,
    PeerFinished,
    Finish,
}

/// A record in short, by its kind and its number, and its moment.
#[derive(Clone, Copy)]
pub struct Noted {
    pub kind: Kind,
    pub number: u64,
    pub moment: u64,
}

/// Whether the message of this number is the long one.
fn is_long(number: u64) -> bool {
    number % 3 == 0
}

/// The message of this number.
fn payload(alloc: Global, number: u64) -> Result<Bytes, AllocError>
    ensures legal { IfOk result IsPayload }
{
    if is_long(number) {
        Bytes::from_slice(alloc, &LONG)
    } else {
        Bytes::from_slice(alloc, &SHORT)
    }
}

/// The record of this kind and number, of which 0 is made 1, with this payload where it has one.
fn made(kind: Kind, number: u64, payload: Bytes) -> Record
    requires payload { IsPayload payload }
    ensures legal { IsRecord result }
{
    let number = number.max(1);
    match kind {
        Kind::Entry => Record::Entry {
            sender: 1,
            k: number,
            payload,
        },
        Kind::Apply => Record::Apply { number, payload },
        Kind::Skip => Record::Skip {
            from: number,
            count: number,
        },
        Kind::Negotiated => Record::Negotiated,
        Kind::PeerFinished => Record::PeerFinished { last: number },
        Kind::Finish => Record::Finish,
    }
}

impl Noted {
    /// The record that it stands for.
    pub fn record(self, alloc: Global) -> Result<Record, AllocError>
        ensures legal { IfOk result IsRecord }
    {
        let payload = payload(alloc, self.number)?;
        Ok(made(self.kind, self.number, payload))
    }

    /// The bytes that it takes in a journal: its gate, its kind, its moment and its length are 14, and its numbers and its
    /// message stand behind them.
    pub fn size(self) -> u64 {
        let message = if is_long(self.number) { 18 } else { 10 };
        match self.kind {
            Kind::Entry => 14 + 2 + 8 + message,
            Kind::Apply => 14 + 8 + message,
            Kind::Skip => 14 + 16,
            Kind::PeerFinished => 14 + 8,
            Kind::Negotiated | Kind::Finish => 14,
        }
    }

    /// Whether it is written past a limit of bytes too.
    pub fn is_control(self) -> bool {
        match self.kind {
            Kind::Entry | Kind::Apply | Kind::Skip => false,
            Kind::Negotiated | Kind::PeerFinished | Kind::Finish => true,
        }
    }
}

/// The records that they stand for.
pub fn records(alloc: Global, notes: &[Noted]) -> Result<Records, AllocError>
    ensures legal { IfOk result (AllByRecursion IsRecord) }
{
    let mut records = Vec::new(alloc);
    for noted in notes {
        records.push(noted.record(alloc)?)?;
    }
    Ok(Records::from(records))
}
