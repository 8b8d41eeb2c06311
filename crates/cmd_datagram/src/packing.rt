//! The messages of a script, and the datagrams that they are packed into, each once.

ghost use Rattle.std.specs.Prelude.{◌≡◌, ◌+◌, ◌*◌, ◌≤◌, length, take, IfOk};
ghost use Rattle.fixp_datagram.specs.Packing.{cut, cut_at};
ghost use Rattle.cmd_datagram.specs.Messages.{payload_of};
ghost use Rattle.cmd_datagram.specs.Delivered.{ArePacked, IsPacked, payloads_of};

use crate::script::datagram_count;
use fixp_datagram::pack;
use sbe_value::{Bytes, Payloads};
use std::alloc::{AllocError, Global};

/// What stands at the front of each payload: the encoding type, and the header of a message.
const FRONT: [u8; 10] = [0xEB, 0x50, 8, 0, 1, 0, 200, 0, 0, 0];

/// The bytes of a datagram's Sequence frame, and those of the frame of a message.
const FRAME_SIZE: usize = 22;

/// The most bytes of a datagram of a script: those of its Sequence frame and of 64 messages.
const GREATEST_SIZE: usize = FRAME_SIZE * 65;

/// The payload of a message.
fn payload(alloc: Global, number: u64) -> Result<Bytes, AllocError>
    ensures { IfOk result (λ p. p ≡ payload_of number) }
{
    let mut bytes = Bytes::new(alloc);
    bytes.extend_from_slice(&FRONT)?;
    bytes.extend_from_slice(&number.to_le_bytes())?;
    Ok(bytes)
}

/// The payloads of so many messages.
///
/// # Errors
/// Want of memory.
pub(crate) fn payloads(alloc: Global, messages: u64) -> Result<Payloads, AllocError>
    requires { messages ≤ 10000 }
    ensures { IfOk result (λ ps. ps ≡ payloads_of messages) }
{
    let mut payloads = Payloads::new(alloc);
    for place in 0..messages {
        payloads.push(payload(alloc, place + 1)?)?;
    }
    Ok(payloads)
}

/// Packs the datagram with this place among them, from 0 on, in room for `per` messages: so it takes so many, or what is left.
/// It gives its size.
fn pack_into(per: u64, payloads: &Payloads, place: u64, room: &mut [u8]) -> usize
    requires per { (1 ≤ per) × (per ≤ 64) }
    requires few { length payloads.now ≤ 10000 }
    requires messages { payloads.now ≡ payloads_of (length payloads.now) }
    requires start { place * per ≤ length payloads.now }
    requires room { length room.old ≡ 22 * (per + 1) }
    ensures packed { IsPacked (take result room.new) (cut_at per payloads.now (place + 1)) }
    ensures within { result ≤ length room.old }
{
    let from = place * per;
    let (size, _) = pack(from + 1, payloads, from as usize, room);
    size
}

/// The datagram with this place among them.
fn packed_at(alloc: Global, per: u64, payloads: &Payloads, place: u64) -> Result<Bytes, AllocError>
    requires per { (1 ≤ per) × (per ≤ 64) }
    requires few { length payloads.now ≤ 10000 }
    requires messages { payloads.now ≡ payloads_of (length payloads.now) }
    requires start { place * per ≤ length payloads.now }
    ensures { IfOk result (λ bytes. IsPacked bytes (cut_at per payloads.now (place + 1))) }
{
    let mut room = [0; GREATEST_SIZE];
    let most = FRAME_SIZE * (per as usize + 1);
    let size = pack_into(per, payloads, place, &mut room[..most]);
    Bytes::from_slice(alloc, &room[..size])
}

/// The datagrams with `per` of these payloads each, the last with what is left.
///
/// # Errors
/// Want of memory.
pub(crate) fn datagrams(
    alloc: Global,
    per: u64,
    payloads: &Payloads,
) -> Result<Payloads, AllocError>
    requires per { (1 ≤ per) × (per ≤ 64) }
    requires few { length payloads.now ≤ 10000 }
    requires messages { payloads.now ≡ payloads_of (length payloads.now) }
    ensures { IfOk result (λ ds. ArePacked ds (cut per payloads.now)) }
{
    let mut datagrams = Payloads::new(alloc);
    for place in 0..datagram_count(per, payloads.len() as u64) {
        let bytes = packed_at(alloc, per, payloads, place)?;
        datagrams.push(bytes)?;
    }
    Ok(datagrams)
}
