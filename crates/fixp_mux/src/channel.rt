//! One session's side of the transport: the bytes that it has not received yet, and those that it sent and that are not written yet.

ghost use Rattle.std.specs.Prelude.{◌≡◌, ◌↔◌, ◌+◌, ◌-◌, ◌≤◌, ◌++◌, length, min, take, drop, IsTrue, true, IfOk};
ghost use Rattle.sofh_frame.specs.Framing.{encoding_of, spelled};
ghost use Rattle.fixp_mux.specs.State.{Session, new_session, session_room};

use crate::held::{Held, SESSION_ROOM};
use sofh_frame::Order;
use std::alloc::{AllocError, Global};
use std::marker::Model;

/// The size of a frame's header in bytes: 4 of its length and 2 of its encoding type (Simple Open Framing Header).
const HEADER_SIZE: usize = 6;

/// The encoding type of SBE 1.0 in a byte order.
fn encoding_of(order: Order) -> u16
    ensures { result ≡ encoding_of order }
{
    match order {
        Order::Little => 0xEB50,
        Order::Big => 0x5BE0,
    }
}

/// Puts a frame behind what waits.
#[tactic(auto, unfolding(sofh_frame::specs::Framing::header_of))]
pub(crate) fn put_frame(held: &mut Held, order: Order, message: &[u8])
    requires short { length message.now ≤ 16384 }
    requires room { length held.old + (6 + length message.now) ≤ SESSION_ROOM }
    ensures { held.new ≡ held.old ++ spelled (record { order = order; message = message.now }) }
{
    let size = HEADER_SIZE + message.len();
    held.put(&(size as u32).to_be_bytes());
    held.put(&encoding_of(order).to_be_bytes());
    held.put(message);
}

/// A session on the transport. Contracts see its identifier, the bytes that wait in either direction, and whether it was released.
#[derive(Drop)]
pub(crate) struct Channel {
    id: [u8; 16],
    input: Held,
    output: Held,
    is_released: bool,
}

impl Model for Channel {
    ghost use Rattle.std.specs.Prelude.{◌≡◌, length};
    ghost use Rattle.fixp_mux.specs.State.{Session};

    ghost Value = { Session };

    ghost view = { λ c. record { id = c.id; input = c.input; output = c.output; is_released = c.is_released } };

    ghost invariant = { λ c. length c.id ≡ 16 };
}

impl Channel {
    /// A session that received and sent nothing yet. It takes all of its memory here.
    ///
    /// # Errors
    /// Want of memory.
    pub(crate) fn new(alloc: Global, id: &[u8; 16]) -> Result<Channel, AllocError>
        ensures { IfOk result (λ c. c ≡ new_session id.now) }
    {
        Ok(Channel {
            id: *id,
            input: Held::new(alloc)?,
            output: Held::new(alloc)?,
            is_released: false,
        })
    }

    /// Its identifier.
    pub(crate) fn id(&self) -> [u8; 16]
        ensures value { result ≡ self.now.id }
        ensures size { length result ≡ 16 }
    {
        self.id
    }

    /// Whether it was released.
    pub(crate) fn is_released(&self) -> bool
        ensures { result ≡ self.now.is_released }
    {
        self.is_released
    }

    /// Whether so many bytes more can wait for it.
    pub(crate) fn has_room(&self, size: usize) -> bool
        ensures { IsTrue result ↔ (length self.now.input + size ≤ session_room) }
    {
        size <= SESSION_ROOM - self.input.len()
    }

    /// Puts a frame behind what waits for it.
    pub(crate) fn give_frame(&mut self, order: Order, message: &[u8])
        requires short { length message.now ≤ 16384 }
        requires room { length self.old.input + (6 + length message.now) ≤ session_room }
        ensures { self.new ≡ record self.old { input = self.old.input ++ spelled (record { order = order; message = message.now }) } }
    {
        put_frame(&mut self.input, order, message);
    }

    /// The bytes that it sent and that are not written yet.
    pub(crate) fn output(&self) -> &[u8]
        ensures { result.now ≡ self.now.output }
    {
        self.output.as_slice()
    }

    /// Lets the first `count` bytes that it sent go, which are at most all of them.
    pub(crate) fn drop_output(&mut self, count: usize)
        requires { count ≤ length self.old.output }
        ensures { self.new ≡ record self.old { output = drop count self.old.output } }
    {
        self.output.drop_front(count);
    }

    /// Receives as many bytes as wait and `into` takes, and answers how many.
    pub(crate) fn receive(&mut self, into: &mut [u8]) -> usize
        ensures count { result ≡ min (length into.old) (length self.old.input) }
        ensures front { take result into.new ≡ take result self.old.input }
        ensures value { self.new ≡ record self.old { input = drop result self.old.input } }
    {
        self.input.give(into)
    }

    /// Takes as many bytes as there is room for, and answers how many.
    pub(crate) fn send(&mut self, bytes: &[u8]) -> usize
        ensures count { result ≡ min (length bytes.now) (session_room - length self.old.output) }
        ensures value { self.new ≡ record self.old { output = self.old.output ++ take result bytes.now } }
    {
        let count = bytes.len().min(SESSION_ROOM - self.output.len());
        let (front, _) = bytes.split_at(count);
        self.output.put(front);
        count
    }

    /// From now on frames for it are dropped.
    pub(crate) fn release(&mut self)
        ensures { self.new ≡ record self.old { is_released = true } }
    {
        self.is_released = true;
    }
}
