//! Records and messages in words.

ghost use Rattle.std.specs.Prelude.{IfOk, IfSome};
ghost use Rattle.std.specs.List.{AllByRecursion};
ghost use Rattle.jr_record.specs.Records.{IsRecord, IsPayload};

use cases_words::{halves, number};
use gw_outside::Bytes;
use jr_dated::Records;
use jr_record::Record;
use std::alloc::{AllocError, Global};

/// The application message of the template that a word spells; of template 0 where it spells none.
pub fn message_of(word: &str) -> [u8; 10] {
    message(word.parse::<u8>().unwrap_or(0))
}

/// An application message of 8 bytes behind its encoding type, of this template.
const fn message(template: u8) -> [u8; 10] {
    [0xEB, 0x50, 0, 0, template, 0, 0x64, 0, 1, 0]
}

/// The template of a payload; 0 where it is too short.
pub fn template_of(payload: &[u8]) -> u8 {
    payload.get(4).copied().unwrap_or(0)
}

/// A payload in a word: `session`, a session message; `frameless`, one that begins with no encoding type; an application message
/// otherwise.
fn payload_of(word: &str) -> [u8; 10] {
    match word {
        "session" => [0xEB, 0x50, 8, 0, 7, 0, 0x11, 0xF0, 0, 0],
        "frameless" => [0xEB, 0x51, 0, 0, 7, 0, 0x64, 0, 1, 0],
        _ => message(7),
    }
}

/// The record of the peer's message of this number, of which 0 is made 1.
fn apply(alloc: Global, number: u64) -> Result<Record, AllocError>
    ensures legal { IfOk result IsRecord }
{
    let payload = Bytes::from_slice(alloc, &message(7))?;
    Ok(Record::Apply {
        number: number.max(1),
        payload,
    })
}

/// The records of the peer's messages of these numbers.
pub fn applies(alloc: Global, first: u64, last: u64) -> Result<Records, AllocError>
    ensures legal { IfOk result (AllByRecursion IsRecord) }
{
    let mut records = Vec::new(alloc);
    for number in first..=last {
        records.push(apply(alloc, number)?)?;
    }
    Ok(Records::from(records))
}

/// The record of this kind with these numbers, of which 0 is made 1, and this payload, as far as it has them.
fn record(kind: &str, first: u64, second: u64, payload: Bytes) -> Option<Record>
    requires payload { IsPayload payload }
    ensures legal { IfSome result IsRecord }
{
    match kind {
        "entry" => Some(Record::Entry {
            sender: 1,
            k: first.max(1),
            payload,
        }),
        "apply" => Some(Record::Apply {
            number: first.max(1),
            payload,
        }),
        "skip" => Some(Record::Skip {
            from: first.max(1),
            count: second.max(1),
        }),
        "negotiated" => Some(Record::Negotiated),
        "peer-finished" => Some(Record::PeerFinished { last: first }),
        "finish" => Some(Record::Finish),
        _ => None,
    }
}

/// A record in words: `entry NUMBER [PAYLOAD]` of sender 1, `apply NUMBER`, `skip FROM COUNT`, `negotiated`, `peer-finished LAST`,
/// `finish`.
pub fn record_of(alloc: Global, words: &str) -> Result<Option<Record>, AllocError>
    ensures legal { IfOk result (λ r. IfSome r IsRecord) }
{
    let (kind, others) = halves(words);
    let (first, second) = halves(others);
    let payload = Bytes::from_slice(alloc, &payload_of(second))?;
    Ok(record(kind, number(first), number(second), payload))
}
