//! Datagrams as bytes: `pack FIRST ROOM FROM N..` packs the payloads of these messages from that index on, and shows the bytes;
//! `sizes FIRST ROOM SIZE..` packs payloads of these sizes, and opens what is packed, and that with a byte more; `open FRAME..` opens the
//! frames, which stand one behind another, by their names or in hexadecimal.

ghost use Rattle.std.specs.Prelude.{IsTrue};
ghost use Rattle.std.specs.List.{AllByRecursion};
ghost use Rattle.fixp_msgs.specs.Payload.{IsApplication};

use cases_words::{Named, digits, halves, number};
use fixp_datagram::{open_datagram, pack};
use fixp_msgs::is_application;
use sbe_value::{Bytes, Payloads};
use std::alloc::{AllocError, Global};

/// What stands before a message's number in its payload: the encoding type, and the header of template 1 of schema 200.
const FRONT: [u8; 10] = [0xEB, 0x50, 8, 0, 1, 0, 200, 0, 0, 0];

/// The most bytes of a payload.
const LARGEST: u64 = 16_386;

/// The most room that a datagram is packed in, in bytes.
const MOST_ROOM: u64 = 70_000;

/// The bytes of a Sequence frame, which a datagram has at least.
const LEAST_ROOM: usize = 22;

/// The most frames of a datagram.
const MOST_FRAMES: u64 = 65_000;

/// A datagram that was packed, and how many payloads it took.
#[derive(Drop)]
pub struct Packed {
    pub bytes: Vec<u8>,
    taken: usize,
}

/// The payload of a message.
pub fn payload(alloc: Global, number: u64) -> Result<Bytes, AllocError> {
    let mut bytes = Bytes::new(alloc);
    bytes.extend_from_slice(&FRONT)?;
    bytes.extend_from_slice(&number.to_le_bytes())?;
    Ok(bytes)
}

/// A payload of so many bytes.
fn payload_of(alloc: Global, size: u64) -> Result<Bytes, AllocError> {
    let mut bytes = Vec::from_slice(alloc, &FRONT)?;
    bytes.resize(size.clamp(10, LARGEST) as usize, 0)?;
    Ok(Bytes::from(bytes))
}

/// Whether each is the payload of an application message.
#[tactic(auto, using(crate::proofs::Applications::each))]
fn are_applications(payloads: &[Bytes]) -> bool
    ensures { IsTrue result → AllByRecursion IsApplication payloads.now }
{
    payloads
        .iter()
        .all(|payload| is_application(payload.as_slice()))
}

/// Packs payloads from an index on into so much room; None where that is too little, or one is no message of an application.
pub fn pack_from(
    alloc: Global,
    first: u64,
    payloads: &Payloads,
    from: usize,
    room: usize,
) -> Result<Option<Packed>, AllocError> {
    if room < LEAST_ROOM || from > payloads.len() || !are_applications(payloads.as_slice()) {
        return Ok(None);
    }
    let mut bytes = vec![in alloc; 0; room]?;
    let (size, taken) = pack(first, payloads, from, bytes.as_mut_slice());
    bytes.truncate(size);
    Ok(Some(Packed { bytes, taken }))
}

/// The room of a word, in bytes.
fn room_of(word: &str) -> usize {
    number(word).min(MOST_ROOM) as usize
}

/// The payloads of the messages that words name.
fn payloads_of(alloc: Global, words: &str) -> Result<Payloads, AllocError> {
    let mut payloads = Payloads::new(alloc);
    for word in words.split(" ") {
        payloads.push(payload(alloc, number(word))?)?;
    }
    Ok(payloads)
}

/// Payloads of the sizes that words name.
fn payloads_sized(alloc: Global, words: &str) -> Result<Payloads, AllocError> {
    let mut payloads = Payloads::new(alloc);
    for word in words.split(" ") {
        payloads.push(payload_of(alloc, number(word))?)?;
    }
    Ok(payloads)
}

/// Adds the size and the bytes of what is packed, and how many payloads it takes.
pub fn add_packed(alloc: Global, words: &str, told: &mut String) -> Result<(), AllocError> {
    let (first, words) = halves(words);
    let (room, words) = halves(words);
    let (from, words) = halves(words);
    let payloads = payloads_of(alloc, words)?;
    let from = number(from).min(MOST_FRAMES) as usize;
    match pack_from(alloc, number(first), &payloads, from, room_of(room))? {
        Some(packed) => {
            let digits = digits(alloc, packed.bytes.as_slice())?;
            let size = packed.bytes.len();
            let taken = packed.taken;
            write!(told, ", {size} bytes, {taken} taken, {digits}")
        }
        None => write!(told, ", none"),
    }
}

/// Adds the first number of the datagram that bytes spell, and how many messages it has; or why they spell none.
fn add_count(bytes: &[u8], told: &mut String) -> Result<(), AllocError> {
    match open_datagram(bytes) {
        Ok(datagram) => {
            let mut datagram = datagram;
            let mut count = 0u64;
            for _ in 0..MOST_FRAMES {
                if datagram.next().is_none() {
                    break;
                }
                count = count.saturating_add(1);
            }
            let first = datagram.first();
            write!(told, ", {count} from {first} on")
        }
        Err(fault) => write!(told, ", {fault:?}"),
    }
}

/// Adds the size of what is packed, how many payloads it takes, and what opening it gives, and it with a byte more.
pub fn add_sizes(alloc: Global, words: &str, told: &mut String) -> Result<(), AllocError> {
    let (first, words) = halves(words);
    let (room, words) = halves(words);
    let payloads = payloads_sized(alloc, words)?;
    match pack_from(alloc, number(first), &payloads, 0, room_of(room))? {
        Some(packed) => {
            let mut bytes = packed.bytes;
            let size = bytes.len();
            let taken = packed.taken;
            write!(told, ", {size} bytes, {taken} taken")?;
            add_count(bytes.as_slice(), told)?;
            bytes.push(0)?;
            add_count(bytes.as_slice(), told)
        }
        None => write!(told, ", none"),
    }
}

/// The bytes of frames that stand one behind another.
fn joined(alloc: Global, frames: Named<'_>, words: &str) -> Result<Vec<u8>, AllocError> {
    let mut bytes = Vec::new(alloc);
    for word in words.split(" ") {
        let frame = frames.bytes(alloc, word)?;
        bytes.extend_from_slice(frame.as_slice())?;
    }
    Ok(bytes)
}

/// Adds the payloads of the datagram that bytes spell behind its first number; or why they spell none.
pub fn add_opened(
    alloc: Global,
    frames: Named<'_>,
    words: &str,
    told: &mut String,
) -> Result<(), AllocError> {
    let bytes = joined(alloc, frames, words)?;
    let mut datagram = match open_datagram(bytes.as_slice()) {
        Ok(datagram) => datagram,
        Err(fault) => return write!(told, ", {fault:?}"),
    };
    let first = datagram.first();
    write!(told, ", from {first} on")?;
    for _ in 0..MOST_FRAMES {
        let Some(payload) = datagram.next() else {
            break;
        };
        let digits = digits(alloc, payload)?;
        write!(told, " {digits}")?;
    }
    Ok(())
}
