//! Packing payloads into a datagram. It relies on the writing of a Sequence, and copies each payload once, into the room given.

ghost use Rattle.std.specs.Prelude.{◌≡◌, ℕ, ◌+◌, ◌≤◌, ◌++◌, length, map, take, drop, min};
ghost use Rattle.std.specs.List.{AllByRecursion};
ghost use Rattle.sofh_frame.specs.Framing.{spelled};
ghost use Rattle.sofh_frame.specs.Splits.{spelled_all};
ghost use Rattle.fixp_msgs.specs.Payload.{IsApplication};
ghost use Rattle.fixp_datagram.specs.Datagrams.{most_bytes, SpellsDatagram};
ghost use Rattle.fixp_datagram.specs.Packing.{frame_of, packed};

use crate::datagram::{LENGTH_SIZE, MOST_BYTES};
use fixp_msgs::{Sequence, SessionMsg, write};
use sbe_value::{Bytes, Payloads};

/// Writes a datagram at the front of `out`: a Sequence with the number `first`, and behind it the frames of as many payloads
/// as fit in `out` and in 65,000 bytes, from the one with index `from` on, in order. It gives the number of bytes written and
/// the number of payloads taken. What stands behind the datagram stays. `out` is to have at least 22 bytes.
pub fn pack(first: u64, payloads: &Payloads, from: usize, out: &mut [u8]) -> (usize, usize)
    requires applications { AllByRecursion IsApplication payloads.now }
    requires start { from ≤ length payloads.now }
    requires room { 22 ≤ length out.old }
    ensures taken { from + result.1 ≤ length payloads.now }
    ensures spells { SpellsDatagram (take result.0 out.new) (record { first = first; payloads = take result.1 (drop from payloads.now) }) }
    ensures bytes { take result.0 out.new ≡ packed first (take result.1 (drop from payloads.now)) }
    ensures size { result.0 ≡ length (packed first (take result.1 (drop from payloads.now))) }
    ensures fits { result.0 ≤ min (length out.old) most_bytes }
    ensures longest { (n : ℕ) → from + n ≤ length payloads.now
        → length (packed first (take n (drop from payloads.now))) ≤ min (length out.old) most_bytes → n ≤ result.1 }
    ensures behind { drop result.0 out.new ≡ drop result.0 out.old }
{
    let head = write(&SessionMsg::Sequence(Sequence { next_seq: first }), out);
    let (_, left) = payloads.as_slice().split_at(from);
    append_frames(left, head, out)
}

/// Puts the frames of as many payloads as fit into the room of a datagram behind what stands in the first `head` bytes of
/// `out`. It gives the place behind them and their number.
fn append_frames(left: &[Bytes], head: usize, out: &mut [u8]) -> (usize, usize)
    requires applications { AllByRecursion IsApplication left.now }
    requires start { head ≤ min (length out.old) most_bytes }
    ensures taken { result.1 ≤ length left.now }
    ensures front { take result.0 out.new ≡ take head out.old ++ spelled_all (map frame_of (take result.1 left.now)) }
    ensures size { result.0 ≡ head + length (spelled_all (map frame_of (take result.1 left.now))) }
    ensures fits { result.0 ≤ min (length out.old) most_bytes }
    ensures longest { (n : ℕ) → n ≤ length left.now
        → head + length (spelled_all (map frame_of (take n left.now))) ≤ min (length out.old) most_bytes → n ≤ result.1 }
    ensures behind { (n : ℕ) → result.0 ≤ n → drop n out.new ≡ drop n out.old }
{
    let room = out.len().min(MOST_BYTES);
    let mut at = head;
    let mut taken = 0;
    for payload in left {
        if payload.len() + LENGTH_SIZE > room - at {
            return (at, taken);
        }
        at = put_frame(out, at, payload.as_slice());
        taken += 1;
    }
    (at, taken)
}

/// Puts the frame of a payload at a place of `out`, and gives the place behind it.
fn put_frame(out: &mut [u8], at: usize, payload: &[u8]) -> usize
    requires application { IsApplication payload.now }
    requires room { at + 4 + length payload.now ≤ length out.old }
    ensures end { result ≡ at + 4 + length payload.now }
    ensures front { take result out.new ≡ take at out.old ++ spelled (frame_of payload.now) }
    ensures behind { (n : ℕ) → result ≤ n → drop n out.new ≡ drop n out.old }
{
    let size = (payload.len() + LENGTH_SIZE) as u32;
    let at = put(out, at, &size.to_be_bytes());
    put(out, at, payload)
}

/// Puts bytes at a place of `out`, and gives the place behind them.
fn put(out: &mut [u8], at: usize, bytes: &[u8]) -> usize
    requires { at + length bytes.now ≤ length out.old }
    ensures end { result ≡ at + length bytes.now }
    ensures front { take result out.new ≡ take at out.old ++ bytes.now }
    ensures behind { (n : ℕ) → result ≤ n → drop n out.new ≡ drop n out.old }
{
    let end = at + bytes.len();
    out[at..end].copy_from_slice(bytes);
    end
}
