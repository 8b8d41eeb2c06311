//! Writing and reading each session message many times.
//! Relies on `fixp_msgs`.

ghost use Rattle.std.specs.Prelude.{◌≡◌, ◌-◌, ◌<◌, ◌≤◌, ◌^◌, length};

use crate::bench::messages::{made, sum_of};
use fixp_msgs::{FrameKind, kind, read, size, write};
use sbe_prim::Order;

/// The data of a message that has some.
const DATA: [u8; 8] = [0x70, 0x61, 0x73, 0x73, 0x77, 0x6F, 0x72, 0x64];

/// More than a frame has: where less is left of a buffer, the next frame stands at its front again.
const MOST: usize = 2108;

/// The bytes before a frame's message.
const FRAMING: usize = 6;

/// Writes the message of a template at the front, where there is room, and answers the frame's size.
fn put(template: u16, id: &[u8; 16], number: u64, out: &mut [u8]) -> usize
    requires number { number < 2 ^ 64 - 1 }
    ensures within { result ≤ length out.old }
{
    let message = made(template, id, number, &DATA);
    if size(&message) > out.len() {
        return 0;
    }
    write(&message, out)
}

/// Writes the message of a template so many times, with the numbers 0, 1 and so on, one frame behind another, and answers the
/// sum of their sizes.
pub fn write_many(template: u16, id: &[u8; 16], count: u64, buffer: &mut [u8]) -> u64 {
    let mut at = 0usize;
    let mut sum = 0u64;
    for number in 0..count {
        if at > buffer.len() || buffer.len() - at < MOST {
            at = 0;
        }
        let written = put(template, id, number, &mut buffer[at..]);
        at += written;
        sum = sum.wrapping_add(written as u64);
    }
    sum
}

/// The sum of what a frame's message says; 0 where it spells none.
fn sum_at(frame: &[u8]) -> u64 {
    let Some((_framing, message)) = frame.split_at_checked(FRAMING) else {
        return 0;
    };
    if message.len() < 8 || kind(Order::Little, message) != FrameKind::Session {
        return 0;
    }
    match read(message) {
        Ok(message) => sum_of(&message),
        Err(_fault) => 0,
    }
}

/// Reads frames of one size, which stand one behind another, so many times, the first one behind the last, and answers the
/// sum of what they say.
pub fn read_many(frame: usize, count: u64, buffer: &[u8]) -> u64 {
    let mut rest = buffer;
    let mut sum = 0u64;
    for _ in 0..count {
        if rest.len() < frame {
            rest = buffer;
        }
        let Some((first, others)) = rest.split_at_checked(frame) else {
            return sum;
        };
        sum = sum.wrapping_add(sum_at(first));
        rest = others;
    }
    sum
}
