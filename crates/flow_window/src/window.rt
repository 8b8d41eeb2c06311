//! The window: messages that came past a gap, held until the gap before them is filled. It lies in memory as a ring of
//! places, of which the first is for the number that the inbox waits for. It stands on the places and on nothing else.

ghost use Rattle.std.specs.Prelude.{◌≡◌, ◌+◌, ◌^◌, ◌<◌, ◌≤◌, ◌++◌, [], drop, length, IfOk, IsSome, None, option_map};
ghost use Rattle.std.specs.Int.{w16, to_be_bytes};
ghost use Rattle.sofh_frame.specs.Framing.{encoding_of};
ghost use Rattle.fixp_msgs.specs.Numbering.{payload_of};
ghost use Rattle.flow_window.specs.Window.{InReach, holding, least, front};
ghost use Rattle.flow_window.specs.Places.{without};

use crate::place::Place;
use sbe_prim::Order;
use std::alloc::{AllocError, Global};
use std::collections::VecDeque;
use std::marker::Model;

/// One place for the number that the inbox waits for, and one for each number within reach.
const PLACES: usize = 257;

/// Messages that are held, and the number that the inbox waits for. It has room for every number from that one to 256 past
/// it: 257 places of 16,386 bytes. Only `new` takes memory.
#[derive(Drop)]
pub struct Window {
    next: u64,
    count: u64,
    places: VecDeque<Place>,
}

impl Model for Window {
    ghost use Rattle.std.specs.VecDeque.{deque_len};
    ghost use Rattle.flow_window.specs.Window.{Holding};
    ghost use Rattle.flow_window.specs.Places.{held_from, IsWindow};

    ghost Value = { Holding };

    ghost view = { λ w. record { next = w.next; held = held_from w.next w.places.items } };

    ghost invariant = { λ w. IsWindow w.next w.count (deque_len w.places) w.places.items };
}

impl Window {
    /// A window that holds nothing, where the inbox waits for the number `next`. It takes 258 pieces of memory: the queue of
    /// places, and 16,386 bytes for each of them.
    ///
    /// # Errors
    /// Want of memory.
    pub fn new(alloc: Global, next: u64) -> Result<Window, AllocError>
        ensures { IfOk result (λ w. w ≡ record { next = next; held = [] }) }
    {
        let mut places = VecDeque::with_capacity(alloc, PLACES)?;
        for _ in 0..PLACES {
            places.push_back(Place::new(alloc)?)?;
        }
        Ok(Window {
            next,
            count: 0,
            places,
        })
    }

    /// What is held lies within reach of the number that the inbox waits for, under rising numbers.
    pub fn in_reach(&self)
        ensures { InReach self.now.next self.now.held }
    {
        let _ = &self.places;
    }

    /// The number that the inbox waits for.
    pub fn next(&self) -> u64
        ensures { result ≡ self.now.next }
    {
        self.next
    }

    /// The least number held.
    pub fn least(&self) -> Option<u64>
        ensures { result ≡ least self.now.held }
    {
        if self.count == 0 {
            return None;
        }
        let mut at = 0;
        while at < self.places.len() {
            if self.places[at].is_taken() {
                return Some(self.next + at as u64);
            }
            at += 1;
        }
        None
    }

    /// Holds a message. Where one is held under this number, that one stays.
    pub fn hold(&mut self, number: u64, payload: &[u8])
        requires near { (self.old.next ≤ number) × (number ≤ self.old.next + 256) }
        requires size { length payload.now ≤ 16386 }
        ensures { self.new ≡ record self.old { held = holding number payload.now self.old.held } }
    {
        self.hold_parts(number, &[], payload);
    }

    /// Holds the message of a frame, whose payload is the encoding type of its byte order and the message (Simple Open Framing
    /// Header, "Encoding Type"). Where one is held under this number, that one stays.
    pub fn hold_frame(&mut self, number: u64, order: Order, message: &[u8])
        requires near { (self.old.next ≤ number) × (number ≤ self.old.next + 256) }
        requires size { length message.now ≤ 16384 }
        ensures { self.new ≡ record self.old { held = holding number (payload_of (record { order = order; message = message.now })) self.old.held } }
    {
        self.hold_parts(number, &encoding_type(order), message);
    }

    /// The message that the inbox waits for, with its number, where it is held.
    pub fn held(&self) -> Option<(u64, &[u8])>
        ensures { option_map (λ h. record { number = h.0; payload = h.1.now }) result ≡ front self.now.next self.now.held }
    {
        let payload = self.front()?;
        Some((self.next, payload))
    }

    /// The payload of the message that the inbox waits for, where it is held.
    pub fn front(&self) -> Option<&[u8]>
        ensures { option_map (λ p. p.now) result ≡ option_map (λ m. m.payload) (front self.now.next self.now.held) }
    {
        self.places[0].payload()
    }

    /// The message that the inbox waited for was taken out of the window and applied.
    pub fn drop_front(&mut self)
        requires held { IsSome (front self.old.next self.old.held) }
        requires next { self.old.next + 1 < 2 ^ 64 }
        ensures { self.new ≡ record { next = self.old.next + 1; held = drop 1 self.old.held } }
    {
        self.turn();
    }

    /// The message that the inbox waited for came and was applied, and was not held.
    pub fn pass(&mut self)
        requires free { front self.old.next self.old.held ≡ None }
        requires next { self.old.next + 1 < 2 ^ 64 }
        ensures { self.new ≡ record self.old { next = self.old.next + 1 } }
    {
        self.turn();
    }

    /// Lets go of all that is held, as a new connection does. It takes no memory and gives none back.
    pub fn restart(&mut self)
        ensures { self.new ≡ record self.old { held = [] } }
    {
        for at in 0..self.places.len() {
            let _ = self.places[at].free();
        }
        self.count = 0;
    }

    /// Holds the payload that these two parts spell.
    fn hold_parts(&mut self, number: u64, first: &[u8], second: &[u8])
        requires near { (self.old.next ≤ number) × (number ≤ self.old.next + 256) }
        requires size { length first.now + length second.now ≤ 16386 }
        ensures { self.new ≡ record self.old { held = holding number (first.now ++ second.now) self.old.held } }
    {
        let at = (number - self.next) as usize;
        self.count += u64::from(self.places[at].hold(first, second));
    }

    /// The inbox waits for the next number. The place of the number before it is free, and becomes that of the last number
    /// within reach.
    fn turn(&mut self)
        requires { self.old.next + 1 < 2 ^ 64 }
        ensures { self.new ≡ record { next = self.old.next + 1; held = without self.old.next self.old.held } }
    {
        self.count -= u64::from(self.places[0].free());
        self.places.rotate_left(1);
        self.next += 1;
    }
}

/// The encoding type of messages in this byte order, as it stands in a frame.
fn encoding_type(order: Order) -> [u8; 2]
    ensures { result ≡ to_be_bytes w16 (encoding_of order) }
{
    match order {
        Order::Little => [0xEB, 0x50],
        Order::Big => [0x5B, 0xE0],
    }
}
