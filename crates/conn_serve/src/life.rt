//! What a life is lived over: OUT, the dialer and the end over its connections, which it has for as long as it lasts.

ghost use Rattle.std.specs.Prelude.{◌≡◌, ◌≤◌, ◌<◌, ◌^◌, ◌+◌, length, IfOk, IfErr};
ghost use Rattle.fixp_msgs.specs.declared.flow.Flow.TheVariants.{Recoverable};
ghost use Rattle.fixp_machine.specs.Machine.{fresh};
ghost use Rattle.jr_kept.specs.Inbox.{next_of};
ghost use Rattle.gate_senders.specs.Gate.{opening_of};
ghost use Rattle.conn_loop.specs.Conn.{line_of, new_line};
ghost use Rattle.conn_serve.specs.Opening.{opened_state};

use crate::news::Teller;
use conn_door::Signals;
use conn_loop::{Conn, LiveEnd};
use fixp_end::{End, EndConfig, EndState};
use gate_senders::{Gate, Kept};
use gate_turn::Pass;
use gw_links::{Clock, Dialer};
use gw_outside::Sink;
use jr_dated::Journal;
use jr_kept::Inbox;
use std::alloc::{AllocError, Global};

/// How many frames a turn of a life's connections takes at most, and entries of the outbox it sends: as many as make their records stable in one
/// piece pay for a slow disk.
const PER_TURN: u16 = 256;

/// Where a life opens: the gate of its outbox; how its end is configured; and how many messages that keeps at most.
pub struct Opening<'g, O: Journal> {
    pub alloc: Global,
    pub gate: &'g Gate<O>,
    pub config: EndConfig,
    pub most: u64,
}

/// What is lent to a life, and comes back behind it.
pub struct Lent<K, N, O: Journal, I: Journal, C> {
    pub out: K,
    pub dialer: N,
    pub clock: C,
    /// The connection's pass, by which it looks at the outbox.
    pub pass: Pass<Kept<O>>,
    pub inbox: Inbox<I>,
}

/// An end over the connections of one life: what it is lent for that, and what it keeps between two connections.
pub struct Life<K, N, O: Journal, I: Journal, C> {
    pub(crate) out: K,
    pub(crate) dialer: N,
    pub(crate) end: LiveEnd<O, I, C>,
    pub(crate) teller: Teller,
    pub(crate) alloc: Global,
}

/// What the journals record as the life opens: what the inbox has, and how many entries the outbox had.
fn opened_state<O: Journal, I: Journal>(gate: &Gate<O>, inbox: &Inbox<I>) -> EndState
    ensures { result ≡ opened_state (opening_of gate.now).history inbox.now }
{
    let (sent, finished) = gate.opened();
    EndState {
        negotiated: inbox.is_negotiated(),
        inbox_next: inbox.next(),
        peer_last: inbox.peer_last(),
        sent,
        finish: if finished { Some(sent) } else { None },
    }
}

/// A connection that has not begun, of a new end.
fn opened<O: Journal, I: Journal>(
    alloc: Global,
    gate: &Gate<O>,
    inbox: &Inbox<I>,
    config: EndConfig,
    most: u64,
) -> Result<Conn, AllocError>
    requires keepalive { (100 ≤ config.keepalive) × (config.keepalive ≤ 60000) }
    requires credentials { length config.credentials ≤ 2048 }
    requires most { most ≤ 2 ^ 26 }
    requires numbered { config.peer_flow ≡ Recoverable → next_of inbox.now + 1 < 2 ^ 64 }
    requires sent { length (opening_of gate.now).history.made < 2 ^ 40 }
    ensures { IfOk result (λ conn. line_of conn ≡ new_line (fresh config (opened_state (opening_of gate.now).history inbox.now) most) 256) }
{
    let end = End::new(alloc, config, opened_state(gate, inbox), most)?;
    Conn::new(alloc, end, PER_TURN)
}

impl<K: Sink, N: Dialer, O: Journal, I: Journal, C: Clock> Life<K, N, O, I, C> {
    ghost use Rattle.gate_turn.specs.Calls.{IsFree};
    ghost use Rattle.conn_door.specs.Flows.{is_sent_again};
    ghost use Rattle.conn_serve.specs.Hears.{hears};
    ghost use Rattle.conn_serve.specs.Lives.{lent_in, machine_in, MayOpen, MayLive};

    /// A life that opens with what it is lent, of a new end that is configured so and keeps so many messages at most.
    ///
    /// # Errors
    /// Where memory runs out what was lent comes back.
    pub fn new(
        opening: Opening<'_, O>,
        lent: Lent<K, N, O, I, C>,
    ) -> Result<Life<K, N, O, I, C>, Lent<K, N, O, I, C>>
        requires may { MayOpen (hears K.Sink N.Dialer N.Link.Link C.Clock) opening.gate.now opening.config opening.most lent }
        ensures lent { IfOk result (λ life. lent_in life ≡ lent) }
        ensures machine { IfOk result (λ life. machine_in life ≡ fresh opening.entry.config (opened_state (opening_of opening.entry.gate.now).history lent.inbox) opening.entry.most) }
        ensures may { IfOk result (λ life. MayLive (hears K.Sink N.Dialer N.Link.Link C.Clock) opening.entry.gate.now life) }
        ensures back { IfErr result (λ back. back ≡ lent) }
    {
        let Opening {
            alloc,
            gate,
            config,
            most,
        } = opening;
        let Ok(conn) = opened(alloc, gate, &lent.inbox, config, most) else {
            return Err(lent);
        };
        let Lent {
            out,
            dialer,
            clock,
            pass,
            inbox,
        } = lent;
        Ok(Life {
            out,
            dialer,
            end: LiveEnd::new(conn, pass, inbox, clock),
            teller: Teller::new(alloc),
            alloc,
        })
    }

    /// The signals of this life, as it opens.
    pub fn signals(&self) -> Signals
        ensures { result ≡ is_sent_again (machine_in self.now).config.own_flow }
    {
        Signals::new(self.end.end())
    }

    /// What wakes the link that is lent while it waits, for another thread.
    pub fn waker(&self) -> N::Waker {
        self.dialer.waker()
    }

    /// What it was lent, again.
    pub fn end(self) -> Lent<K, N, O, I, C>
        ensures lent { result ≡ lent_in self }
        ensures free { IsFree result.pass }
    {
        let Life {
            out,
            dialer,
            end,
            teller: _,
            alloc: _,
        } = self;
        let (pass, inbox, clock) = end.into_parts();
        Lent {
            out,
            dialer,
            clock,
            pass,
            inbox,
        }
    }
}
