//! The receiving end of a recoverable flow on one connection, with what it holds: its numbers and its window together.
//! The two are apart in an end whose replies wait for their records, since numbers are copied and a window is not.

ghost use Rattle.std.specs.Prelude.{◌≡◌, ◌+◌, ◌^◌, ◌<◌, ◌≤◌, ◌↔◌, IsOk, IfOk, IfErr, IfSome, IsSome, OnOk, OnErr, None, option_map, length};
ghost use Rattle.fixp_msgs.specs.Numbering.{payload_of};
ghost use Rattle.flow_recover.specs.Receiving.{expected, announced, retransmitted, number, seen, after_message, gap};
ghost use Rattle.flow_window.specs.Window.{holding, least, front};
ghost use Rattle.flow_window.specs.Gathering.{after_held, beginning, dropped};

use crate::window::Window;
use fixp_msgs::Range;
use flow_recover::{Back, Numbers, Seen};
use sbe_prim::Order;
use std::alloc::{AllocError, Global};
use std::marker::Model;

/// The receiving end of a recoverable flow on one connection, with its window (FIXP 1.1, recoverable flow type).
#[derive(Drop)]
pub struct Receiver {
    numbers: Numbers,
    window: Window,
}

impl Model for Receiver {
    ghost use Rattle.std.specs.Prelude.{◌≡◌};
    ghost use Rattle.flow_window.specs.Gathering.{Gathering};

    ghost Value = { Gathering };

    ghost view = { λ r. record { numbers = r.numbers; held = r.window.held } };

    ghost invariant = { λ r. r.window.next ≡ r.numbers.next };
}

impl Receiver {
    /// The receiver at the beginning of a connection, where the inbox waits for the number `next`. It holds nothing, and
    /// takes the memory of its window, some 4 MB in 258 pieces.
    ///
    /// # Errors
    /// Want of memory.
    pub fn new(alloc: Global, next: u64) -> Result<Receiver, AllocError>
        ensures { IfOk result (λ r. r ≡ beginning next) }
    {
        Ok(Receiver {
            numbers: Numbers::new(next),
            window: Window::new(alloc, next)?,
        })
    }

    /// Another connection begins: nothing is held, and the inbox waits for the number that it waited for.
    pub fn restart(&mut self)
        ensures { self.new ≡ beginning self.old.numbers.next }
    {
        self.window.restart();
        self.numbers = Numbers::new(self.numbers.next());
    }

    /// The next number `next_seq` is announced by an Establish, an EstablishmentAck or a Sequence. It ends a retransmission.
    ///
    /// # Errors
    /// The number is below the one expected, the greater of the number that the inbox waits for and the live number.
    /// Nothing has changed then.
    pub fn announce(&mut self, next_seq: u64) -> Result<(), Back>
        ensures taken { IsOk result ↔ (expected self.old.numbers ≤ next_seq) }
        ensures live { OnOk result (self.new ≡ record self.old { numbers = announced self.old.numbers next_seq }) }
        ensures back { IfErr result (λ back. back ≡ record { announced = next_seq; expected = expected self.old.numbers }) }
        ensures same { OnErr result (self.new ≡ self.old) }
    {
        self.numbers.announce(next_seq)
    }

    /// The same where the peer may go back behind the live number: it was told which number the inbox waits for, and starts
    /// there.
    ///
    /// # Errors
    /// The number is below the one that the inbox waits for. Nothing has changed then.
    pub fn announce_soft(&mut self, next_seq: u64) -> Result<(), Back>
        ensures taken { IsOk result ↔ (self.old.numbers.next ≤ next_seq) }
        ensures live { OnOk result (self.new ≡ record self.old { numbers = announced self.old.numbers next_seq }) }
        ensures back { IfErr result (λ back. back ≡ record { announced = next_seq; expected = self.old.numbers.next }) }
        ensures same { OnErr result (self.new ≡ self.old) }
    {
        self.numbers.announce_soft(next_seq)
    }

    /// A retransmission begins with the number `first`. The messages up to the next announcement are numbered from there.
    pub fn on_retransmission(&mut self, first: u64)
        ensures { self.new ≡ record self.old { numbers = retransmitted self.old.numbers first } }
    {
        self.numbers.on_retransmission(first);
    }

    /// The number that the inbox waits for.
    pub fn next(&self) -> u64
        ensures { result ≡ self.now.numbers.next }
    {
        self.numbers.next()
    }

    /// The least number that may be announced: the greater of the number that the inbox waits for and the live number.
    pub fn expected(&self) -> u64
        ensures { result ≡ expected self.now.numbers }
    {
        self.numbers.expected()
    }

    /// The live number, which the next message outside a retransmission has.
    pub fn live(&self) -> u64
        ensures { result ≡ self.now.numbers.live }
    {
        self.numbers.live()
    }

    /// The number of the next application message: the retransmission's inside one, else the live number.
    pub fn number(&self) -> u64
        ensures { result ≡ number self.now.numbers }
    {
        self.numbers.number()
    }

    /// Takes an application message, and tells what becomes of it. One that is to be held is handed to `hold` next.
    pub fn on_app(&mut self) -> Seen
        requires number { number self.old.numbers + 1 < 2 ^ 64 }
        requires free { front self.old.numbers.next self.old.held ≡ None }
        ensures seen { result ≡ seen self.old.numbers }
        ensures after { self.new ≡ record self.old { numbers = after_message self.old.numbers } }
    {
        let seen = self.numbers.on_app();
        match seen {
            Seen::Deliver(_) => self.window.pass(),
            Seen::Hold(_) | Seen::Gap(_) | Seen::Repeat(_) => {}
        }
        seen
    }

    /// Takes an application message with its payload: what `on_app` does, and `hold` where it is to be held.
    pub fn take(&mut self, payload: &[u8]) -> Seen
        requires number { number self.old.numbers + 1 < 2 ^ 64 }
        requires free { front self.old.numbers.next self.old.held ≡ None }
        requires size { length payload.now ≤ 16386 }
        ensures seen { result ≡ seen self.old.numbers }
        ensures after { self.new ≡ after_held self.old payload.now }
    {
        let seen = self.on_app();
        match seen {
            Seen::Hold(number) => self.hold(number, payload),
            Seen::Deliver(_) | Seen::Gap(_) | Seen::Repeat(_) => {}
        }
        seen
    }

    /// Holds a message. Where one is held under this number, that one stays.
    pub fn hold(&mut self, number: u64, payload: &[u8])
        requires near { (self.old.numbers.next ≤ number) × (number ≤ self.old.numbers.next + 256) }
        requires size { length payload.now ≤ 16386 }
        ensures { self.new ≡ record self.old { held = holding number payload.now self.old.held } }
    {
        self.window.hold(number, payload);
    }

    /// Holds the message of a frame. Where one is held under this number, that one stays.
    pub fn hold_frame(&mut self, number: u64, order: Order, message: &[u8])
        requires near { (self.old.numbers.next ≤ number) × (number ≤ self.old.numbers.next + 256) }
        requires size { length message.now ≤ 16384 }
        ensures { self.new ≡ record self.old { held = holding number (payload_of (record { order = order; message = message.now })) self.old.held } }
    {
        self.window.hold_frame(number, order, message);
    }

    /// The least number held.
    pub fn least(&self) -> Option<u64>
        ensures { result ≡ least self.now.held }
    {
        self.window.least()
    }

    /// The payload of the message that the inbox waits for, where it is held.
    pub fn front(&self) -> Option<&[u8]>
        ensures { option_map (λ p. p.now) result ≡ option_map (λ m. m.payload) (front self.now.numbers.next self.now.held) }
    {
        self.window.front()
    }

    /// The message that the inbox waits for, with its number, where it is held.
    pub fn held(&self) -> Option<(u64, &[u8])>
        ensures { option_map (λ h. record { number = h.0; payload = h.1.now }) result ≡ front self.now.numbers.next self.now.held }
    {
        self.window.held()
    }

    /// The message that the inbox waited for was taken out of the window and applied.
    pub fn drop_front(&mut self)
        requires held { IsSome (front self.old.numbers.next self.old.held) }
        requires next { self.old.numbers.next + 1 < 2 ^ 64 }
        ensures { self.new ≡ dropped self.old }
    {
        self.window.drop_front();
        self.numbers.pass();
    }

    /// The numbers that are missing, if there are any: from the one that the inbox waits for up to the least one held, or up
    /// to the live number where none is held.
    pub fn gap(&self) -> Option<Range>
        ensures exact { result ≡ gap (least self.now.held) self.now.numbers }
        ensures within { IfSome result (λ g. (1 ≤ g.count) × (g.from + g.count < 2 ^ 64)) }
    {
        self.numbers.gap(self.window.least())
    }
}
