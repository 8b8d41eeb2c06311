//! The framing header, and the first frame of a slice of bytes.
//! Nothing is copied: a frame's message is lent from the slice.

ghost use Rattle.std.specs.Prelude.{◌≡◌, ℕ, ◌≤◌, ◌↔◌, length};
ghost use Rattle.sofh_frame.specs.Framing.{first_of, Frame, frame, rest, bad_length, bad_encoding, BeginsWith, IfFrame, IsRest, IsBadLength, IsBadEncoding, frame_in, order_of, length_in, encoding_in};
ghost use Rattle.sofh_frame.specs.FirstFrame.{seen};

use crate::Order;

/// The header's size in bytes: 4 of the length and 2 of the encoding type.
const HEADER_SIZE: usize = 6;

/// The size of the smallest frame in bytes, its header included.
const LEAST_SIZE: u32 = 14;

/// The size of the largest frame in bytes, its header included.
const MOST_SIZE: u32 = 16_390;

/// The encoding type of SBE 1.0 with little-endian numbers.
const LITTLE_ENDIAN: u16 = 0xEB50;

/// The encoding type of SBE 1.0 with big-endian numbers.
const BIG_ENDIAN: u16 = 0x5BE0;

/// What stands at the front of some bytes (Simple Open Framing Header).
#[derive(Clone, Copy, Debug, PartialEq, Eq)]
pub enum FirstFrame<'a> {
    /// A whole frame.
    Frame {
        /// The byte order that the encoding type names.
        order: Order,
        /// The message behind the header: 8 to 16,384 bytes.
        message: &'a [u8],
        /// The frame's size in bytes, its 6 byte header included: 14 to 16,390.
        size: usize,
    },
    /// Less than a frame: bytes are missing that may still come.
    Rest,
    /// The header's length, which is below 14 or above 16,390.
    BadLength(u32),
    /// The header's encoding type, which is neither 0xEB50 nor 0x5BE0.
    BadEncoding(u16),
}

/// The number in the first 4 bytes.
#[tactic(auto, unfolding(crate::specs::Framing::length_in))]
fn length_at_front(bytes: &[u8]) -> u32
    requires { 4 ≤ length bytes.now }
    ensures { result ≡ length_in bytes.now }
{
    u32::from_be_bytes([bytes[0], bytes[1], bytes[2], bytes[3]])
}

/// The number in the 2 bytes behind the length.
#[tactic(auto, unfolding(crate::specs::Framing::encoding_in))]
fn encoding_at_front(bytes: &[u8]) -> u16
    requires { 6 ≤ length bytes.now }
    ensures { result ≡ encoding_in bytes.now }
{
    u16::from_be_bytes([bytes[4], bytes[5]])
}

/// The byte order that an encoding type names.
fn order_named(encoding: u16) -> Option<Order>
    ensures { result ≡ order_of encoding }
{
    match encoding {
        LITTLE_ENDIAN => Some(Order::Little),
        BIG_ENDIAN => Some(Order::Big),
        _ => None,
    }
}

/// The frame behind an admissible length, once its encoding type is there.
fn frame_at_front(bytes: &[u8], size: usize) -> FirstFrame<'_>
    requires header { 6 ≤ length bytes.now }
    requires least { 6 ≤ size }
    requires stated { size ≡ length_in bytes.now }
    ensures { seen result ≡ frame_in bytes.now (order_of (encoding_in bytes.now)) }
{
    let encoding = encoding_at_front(bytes);
    let Some(order) = order_named(encoding) else {
        return FirstFrame::BadEncoding(encoding);
    };
    if bytes.len() < size {
        return FirstFrame::Rest;
    }
    FirstFrame::Frame {
        order,
        message: &bytes[HEADER_SIZE..size],
        size,
    }
}

fn first_frame<'a>(bytes: &'a [u8]) -> FirstFrame<'a>
    ensures { seen result ≡ first_of bytes.now }
{
    if bytes.len() < 4 {
        return FirstFrame::Rest;
    }
    let length = length_at_front(bytes);
    if !(LEAST_SIZE..=MOST_SIZE).contains(&length) {
        return FirstFrame::BadLength(length);
    }
    if bytes.len() < HEADER_SIZE {
        return FirstFrame::Rest;
    }
    frame_at_front(bytes, length as usize)
}

/// The first frame of `bytes`, or why there is none.
pub fn next<'a>(bytes: &'a [u8]) -> FirstFrame<'a>
    ensures exact { seen result ≡ first_of bytes.now }
    ensures found { IfFrame (seen result) (BeginsWith bytes.now) }
    ensures only { (f : Frame) (size : ℕ) → BeginsWith bytes.now f size
        → seen result ≡ frame f.order f.message size }
    ensures rest { (seen result ≡ rest) ↔ IsRest bytes.now }
    ensures bad_length { (n : ℕ) → (seen result ≡ bad_length n) ↔ IsBadLength bytes.now n }
    ensures bad_encoding { (e : ℕ) → (seen result ≡ bad_encoding e) ↔ IsBadEncoding bytes.now e }
{
    first_frame(bytes)
}
