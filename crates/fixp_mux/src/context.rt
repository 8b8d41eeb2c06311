//! Context frames: what a frame says of the session of those behind it, and the Context that is written. They are no messages of a session,
//! so their layout stands here.

ghost use Rattle.std.specs.Prelude.{◌≡◌, ◌≤◌, ◌+◌, ◌++◌, length, take, drop};
ghost use Rattle.std.specs.Int.{w16, from_le_bytes};
ghost use Rattle.sofh_frame.specs.Framing.{Frame, spelled};
ghost use Rattle.fixp_mux.specs.Context.{says, context_frame};
ghost use Rattle.fixp_mux.specs.Saying.{said};

use fixp_msgs::{FrameKind, kind};
use sofh_frame::Order;

/// The template of Context (this project's profile).
const CONTEXT_TEMPLATE: u16 = 17;

/// The size of its block in bytes: an identifier, and a number that is ignored.
const CONTEXT_BLOCK: usize = 24;

/// The size of a Context's frame in bytes, as it is written.
pub const CONTEXT_SIZE: usize = 38;

/// A Context's frame with an identifier of zeros: 38 bytes, little-endian; a block of 24 bytes, template 17, the schema of session messages,
/// version 0; the identifier; and the null number (SBE 1.0, "Null values").
const CONTEXT_OF_NONE: [u8; CONTEXT_SIZE] = [
    0x00, 0x00, 0x00, 0x26, 0xEB, 0x50, 0x18, 0x00, 0x11, 0x00, 0x11, 0xF0, 0x00, 0x00, 0x00, 0x00,
    0x00, 0x00, 0x00, 0x00, 0x00, 0x00, 0x00, 0x00, 0x00, 0x00, 0x00, 0x00, 0x00, 0x00, 0xFF, 0xFF,
    0xFF, 0xFF, 0xFF, 0xFF, 0xFF, 0xFF,
];

/// What a frame says of the session of the frames behind it.
#[derive(Clone, Copy)]
pub enum Saying {
    /// It names one.
    Names([u8; 16]),
    /// It is a Context whose block is too short, or is not whole.
    Malformed,
    /// It is no Context.
    Carries,
}

/// The number in the 2 bytes from a place on.
fn number(message: &[u8], at: usize) -> u16
    requires { at + 2 ≤ length message.now }
    ensures { result ≡ from_le_bytes w16 (drop at message.now) }
{
    u16::from_le_bytes([message[at], message[at + 1]])
}

/// The identifier in the first 16 bytes.
fn identifier(block: &[u8]) -> [u8; 16]
    requires { 16 ≤ length block.now }
    ensures { result ≡ take 16 block.now }
{
    let (front, _) = block.split_at(16);
    let mut id = [0; 16];
    id.copy_from_slice(front);
    id
}

/// What a frame with this message says. `message` begins with its SBE header of 8 bytes.
#[tactic(auto, unfolding(crate::specs::Context::says))]
pub fn read_saying(order: Order, message: &[u8]) -> Saying
    requires { 8 ≤ length message.now }
    ensures { said result ≡ says (record { order = order; message = message.now }) }
{
    if !matches!(kind(order, message), FrameKind::Session) {
        return Saying::Carries;
    }
    if number(message, 2) != CONTEXT_TEMPLATE {
        return Saying::Carries;
    }
    let block = number(message, 0) as usize;
    if block < CONTEXT_BLOCK || message.len() < 8 + block {
        return Saying::Malformed;
    }
    let (_, body) = message.split_at(8);
    Saying::Names(identifier(body))
}

/// The bytes of the Context of the session with this identifier, as they are written.
pub fn context_bytes(id: &[u8; 16]) -> [u8; CONTEXT_SIZE]
    ensures { result ≡ spelled (context_frame id.now) }
{
    let mut bytes = CONTEXT_OF_NONE;
    bytes[14..30].copy_from_slice(id);
    bytes
}
